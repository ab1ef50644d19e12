//! A worked row of going back, as a function that does nothing: its contract is the row.

ghost use Rattle.std.specs.Prelude.{ℕ, false, Some, None, [], ◌∷◌};
ghost use Rattle.std.specs.Ordering.{nat_cmp};
ghost use Rattle.base_table.specs.Tabled.{with_mark, with_value, without_key, IsGoneBack};

/// A settled table of the key 1 with `a`: after a mark, a put of 2, a removal of 1 and going back it is as
/// it was. Touched are 2, which had no value, and then 1, which had `a`.
pub fn going_back_by_example()
    ensures { (a b : ℕ) →
        let settled = (1, a) ∷ [] in
        let marked = with_mark (record {
          entries = settled;
          marks = [];
          touched = [];
          settled = settled;
          spent = false;
        }) in
        IsGoneBack (without_key nat_cmp (with_value nat_cmp marked 2 b) 1)
        (record {
          entries = settled;
          marks = [];
          touched = (2, None) ∷ (1, Some a) ∷ [];
          settled = settled;
          spent = false;
        }) }
{}
