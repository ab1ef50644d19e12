//! The residue of values, by which a spelling is checked.

ghost use Rattle.std.specs.Prelude.{◌≡◌, ◌<◌, ◌^◌, map, ◌/◌, ◌%◌};
ghost use Rattle.std.specs.List.{fold};
ghost use Rattle.base_bech32.specs.Alphabet.{IsValues};
ghost use Rattle.base_bech32.specs.Residue.{residue_step};
ghost use Rattle.base_bech32.specs.Spelling.{check_number};

// What the five bits above the lower twenty-five bring, for each of their values.
const BROUGHT: [u32; 32] = [
    0x0000_0000,
    0x3b6a_57b2,
    0x2650_8e6d,
    0x1d3a_d9df,
    0x1ea1_19fa,
    0x25cb_4e48,
    0x38f1_9797,
    0x039b_c025,
    0x3d42_33dd,
    0x0628_646f,
    0x1b12_bdb0,
    0x2078_ea02,
    0x23e3_2a27,
    0x1889_7d95,
    0x05b3_a44a,
    0x3ed9_f3f8,
    0x2a14_62b3,
    0x117e_3501,
    0x0c44_ecde,
    0x372e_bb6c,
    0x34b5_7b49,
    0x0fdf_2cfb,
    0x12e5_f524,
    0x298f_a296,
    0x1756_516e,
    0x2c3c_06dc,
    0x3106_df03,
    0x0a6c_88b1,
    0x09f7_4894,
    0x329d_1f26,
    0x2fa7_c6f9,
    0x14cd_914b,
];

fn step(residue: u32, value: u8) -> u32
    requires residue { residue < 2 ^ 30 }
    requires value { value < 32 }
    ensures step { result ≡ residue_step residue value }
    ensures below { result < 2 ^ 30 }
{
    let moved = (residue & 0x1ff_ffff) << 5;
    (moved ^ value as u32) ^ BROUGHT[(residue >> 25) as usize]
}

fn after_values(start: u32, values: &[u8]) -> u32
    requires start { start < 2 ^ 30 }
    requires values { IsValues values.now }
    ensures residue { result ≡ fold residue_step start values.now }
    ensures below { result < 2 ^ 30 }
{
    let mut residue = start;
    'values: for i in 0..values.len() {
        residue = step(residue, values[i]);
    }
    residue
}

fn after_higher_bits(start: u32, prefix: &[u8]) -> u32
    requires start { start < 2 ^ 30 }
    ensures residue { result ≡ fold residue_step start (map (λ c. c / 32) prefix.now) }
    ensures below { result < 2 ^ 30 }
{
    let mut residue = start;
    'characters: for i in 0..prefix.len() {
        residue = step(residue, prefix[i] >> 5);
    }
    residue
}

fn after_lower_bits(start: u32, prefix: &[u8]) -> u32
    requires start { start < 2 ^ 30 }
    ensures residue { result ≡ fold residue_step start (map (λ c. c % 32) prefix.now) }
    ensures below { result < 2 ^ 30 }
{
    let mut residue = start;
    'characters: for i in 0..prefix.len() {
        residue = step(residue, prefix[i] & 31);
    }
    residue
}

/// The number that checks values behind a prefix.
pub(crate) fn check_number(prefix: &[u8], values: &[u8]) -> u32
    requires { IsValues values.now }
    ensures check { result ≡ check_number prefix.now values.now }
    ensures below { result < 2 ^ 30 }
{
    let higher = after_higher_bits(1, prefix);
    let parted = step(higher, 0);
    let lower = after_lower_bits(parted, prefix);
    let counted = after_values(lower, values);
    after_values(counted, &[0u8; 6]) ^ 1
}
