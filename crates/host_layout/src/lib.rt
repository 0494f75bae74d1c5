// The library's own numbers, which its header states too: the version, and the layout of a record.
#![tactic(auto)]

ghost use Rattle.std.specs.Prelude.{◌≡◌};
ghost use Rattle.host_layout.specs.Library.{record_size, record_align, version};

const RECORD_SIZE: usize = 10920;

const RECORD_ALIGN: usize = 4;

const VERSION: u32 = 8000;

// The version, of which the header has the same number.
pub fn version_number() -> u32
    ensures { result ≡ version }
{
    VERSION
}

// The bytes of a record: proofs/Offsets.antt ties the number to the record's type.
pub fn record_size() -> usize
    ensures { result ≡ record_size }
{
    RECORD_SIZE
}

// What a record's address is a multiple of.
pub fn record_align() -> usize
    ensures { result ≡ record_align }
{
    RECORD_ALIGN
}
