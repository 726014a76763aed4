ghost use Rattle.std.specs.Prelude.{◌≡◌};
ghost use Rattle.of_cell.specs.Words.{pack, seq_of, payload_of};

/// The number of different payloads: a payload has 32 bits.
pub const PAYLOADS: u64 = 1 << 32;

/// The greatest sequence that a limit may be. The sequence after it, `u32::MAX`, still fits into a
/// word.
pub const GREATEST_LIMIT: u32 = u32::MAX - 1;

/// The cell word with this sequence and this payload. Words are ordered by sequence first.
#[tactic(auto, unfolding(crate::specs::Words::pack))]
pub fn pack(seq: u32, payload: u32) -> u64
    ensures { result ≡ pack seq payload }
{
    seq as u64 * PAYLOADS + payload as u64
}

/// The sequence of a cell word, its upper 32 bits.
#[tactic(auto, unfolding(crate::specs::Words::seq_of))]
pub fn seq_of(word: u64) -> u32
    ensures { result ≡ seq_of word }
{
    (word / PAYLOADS) as u32
}

/// The payload of a cell word, its lower 32 bits.
#[tactic(auto, unfolding(crate::specs::Words::payload_of))]
pub fn payload_of(word: u64) -> u32
    ensures { result ≡ payload_of word }
{
    (word % PAYLOADS) as u32
}
