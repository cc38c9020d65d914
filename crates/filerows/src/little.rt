// Little-endian numbers of up to eight bytes.
ghost use Rattle.std.specs.Prelude.{◌≡◌, ◌+◌, ◌*◌, ◌^◌, ◌≤◌, ◌<◌, length};
ghost use Rattle.hall.specs.File.{field};

// The number in the `width` bytes from place `at` on, least byte first: one reader for each width, by the definition `field`, where `from_le_bytes` would need one for each.
pub fn number(bytes: &[u8], at: usize, width: usize) -> u64
    requires { (width ≤ 8) × (at + width ≤ length bytes.now) }
    ensures { (result ≡ field at width bytes.now) × (result < 2 ^ (8 * width)) }
{
    let mut value = 0;
    for i in (0..width).rev() {
        value = u64::from(bytes[at + i]) + 256 * value;
    }
    value
}
