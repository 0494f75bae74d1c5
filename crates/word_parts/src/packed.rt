// Fields in their sizes, packed into a word, high bits first.
ghost use Rattle.std.specs.Prelude.{◌≡◌, ◌<◌};
ghost use Rattle.word_parts.specs.Packed.{command_word, status_word};

// What a field is multiplied by that stands above eleven bits, above ten, above five, above one.
pub const PAST_ELEVEN: u32 = 2048;

pub const PAST_TEN: u32 = 1024;

pub const PAST_FIVE: u32 = 32;

pub const PAST_ONE: u32 = 2;

// The last number of five bits: of addresses, sub-addresses and mode commands.
pub const LAST_OF_FIVE: u32 = 31;

// The command word; of `last` the five low bits.
#[tactic(auto, unfolding(crate::specs::Packed::command_word))]
pub fn command(address: u32, transmit: u32, sub: u32, last: u32) -> u16
    requires { (address < 32) × (transmit < 2) × (sub < 32) }
    ensures { result ≡ command_word address transmit sub last }
{
    (PAST_ELEVEN * address + PAST_TEN * transmit + PAST_FIVE * sub + last % PAST_FIVE) as u16
}

// The status word.
#[tactic(auto, unfolding(crate::specs::Packed::status_word))]
pub fn status(address: u32, error: u32, status: u32, failure: u32) -> u16
    requires { (address < 32) × (error < 2) × (status < 512) × (failure < 2) }
    ensures { result ≡ status_word address error status failure }
{
    (PAST_ELEVEN * address + PAST_TEN * error + PAST_ONE * status + failure) as u16
}
