//! Letting go of a scene, each part in a function of its own: what F1 holds in tables is let go of record by record.

use crate::plain_periods::Plain;
use base_roles::Facts;
use mod_periods::F1;

pub(crate) fn let_go_of_rewards(_rewards: F1) {}

pub(crate) fn let_go_of_facts(_facts: Facts) {}

pub(crate) fn let_go_of_plain(_plain: Plain) {}
