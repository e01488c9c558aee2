// Numbers, limited so that they can be held.
ghost use Rattle.std.specs.Prelude.{◌≡◌, ◌%◌};

pub(crate) fn narrow(x: u64) -> u32
    ensures { result ≡ x % 65536 }
{
    (x % 65536) as u32
}
