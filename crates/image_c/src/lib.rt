// The fault of reading, of `image`, for C and Rust, under its clause: the first of 1 to 11, or 0.
#![tactic(auto)]

ghost use Rattle.std.specs.Prelude.{◌≡◌};
ghost use Rattle.tables.specs.Limits.{version1};
ghost use Rattle.image.specs.Image.{decode, fault_of};

#[unsafe(no_mangle)]
pub extern "C" fn image_fault(s: &[u8]) -> u64
    ensures { result ≡ fault_of (decode version1 s.now) }
{
    image::image_fault(s)
}
