// What the definitions say of every stream. A law's function does nothing: its contract is the law.
ghost use Rattle.std.specs.Prelude.{◌≡◌, ℕ, ◌+◌, ◌-◌, ◌*◌, ◌^◌, ◌<◌, ◌≤◌, List, [], ◌∷◌, ◌++◌};
ghost use Rattle.std.specs.Prelude.{length, slice_index, Option, None, Some, Ok};
ghost use Rattle.std.specs.List.{AllByRecursion};
ghost use Rattle.isp1_tml.specs.declared.tml_fault.TmlFault.{TmlFault};
ghost use Rattle.isp1_tml.specs.declared.tml_fault.TmlFault.TheVariants.{TooLong};
ghost use Rattle.isp1_tml.specs.declared.message.TheConstants.{LONGEST_PDU};
ghost use Rattle.isp1_tml.specs.Message.{Content, pdu, context, heartbeat, header, spelling};
ghost use Rattle.isp1_tml.specs.Message.{spellings, IsMessage};
ghost use Rattle.isp1_tml.specs.Fault.{fault_of};
ghost use Rattle.isp1_tml.specs.Stream.{IsStream, BeginsHeader, BeginsMessage, whole_size};
ghost use Rattle.isp1_tml.specs.Reading.{reading, IsRead, GoesOnFrom};
ghost use Rattle.isp1_tml.specs.Feeding.{Feeding, fresh, room_of, StandsFor, next_of, after_next};
ghost use Rattle.isp1_tml.specs.Beat.{IsDue, IsDead, beat_at};

/// A stream has at most one reading.
pub fn one_reading()
    ensures { (place : ℕ) (octets : List ℕ) (messages others : List Content)
        (rest other : List ℕ) (fault another : Option TmlFault) →
        IsStream place octets messages rest fault → IsStream place octets others other another →
        (messages ≡ others) × (rest ≡ other) × (fault ≡ another) }
{}

/// Every list of octets has a reading: what is worked out from left to right is a stream.
pub fn each_is_read()
    ensures { (place : ℕ) (octets : List ℕ) → ((i : ℕ) → slice_index octets i < 256) →
        IsRead place octets (reading place octets) }
{}

/// What a stream is read as is what is worked out from left to right.
pub fn is_worked_out()
    ensures { (place : ℕ) (octets : List ℕ) (messages : List Content)
        (rest : List ℕ) (fault : Option TmlFault) →
        IsStream place octets messages rest fault →
        reading place octets ≡ record { messages = messages; rest = rest; fault = fault } }
{}

/// What a longer stream adds never changes the messages before.
pub fn longer_stream()
    ensures { (place : ℕ) (octets more : List ℕ) (messages others : List Content)
        (rest other : List ℕ) (fault another : Option TmlFault) →
        IsStream place octets messages rest fault →
        IsStream place (octets ++ more) others other another →
        (added : List Content) × (others ≡ messages ++ added) }
{}

/// Messages stay as they were read, and what comes later is read behind them, from the rest on.
pub fn goes_on()
    ensures { (place : ℕ) (octets more : List ℕ) (messages : List Content) (rest : List ℕ) →
        IsStream place octets messages rest None →
        GoesOnFrom messages (reading (place + length (spellings messages)) (rest ++ more))
        (reading place (octets ++ more)) }
{}

/// A refused stream stays refused, with the same messages before and the same refusal, whatever
/// comes.
pub fn refused_for_good()
    ensures { (place : ℕ) (octets more : List ℕ) (messages : List Content)
        (rest : List ℕ) (fault : TmlFault) →
        IsStream place octets messages rest (Some fault) →
        IsStream place (octets ++ more) messages (rest ++ more) (Some fault) }
{}

/// What was spelled is read: these messages, and nothing after them.
pub fn spelled_is_read()
    ensures all { (place : ℕ) (messages : List Content) → AllByRecursion IsMessage messages →
        IsStream place (spellings messages) messages [] None }
    ensures pdu { (place : ℕ) (body : List ℕ) → length body ≤ LONGEST_PDU →
        IsStream place (header 1 (length body) ++ body) (pdu body ∷ []) [] None }
    ensures heartbeat { (place : ℕ) → IsStream place (header 3 0) (heartbeat ∷ []) [] None }
{}

/// A new feeder stands for nothing, and one that gave its next message stands for that as well.
/// `Feeder::feed` has the same of the octets that come. So after any pieces, in any cuts, the
/// messages given and those still held are those of the octets that came.
pub fn any_pieces()
    ensures begins { StandsFor fresh [] [] }
    ensures gives { (feeder : Feeding) (octets : List ℕ)
        (earlier : List Content) (message : Content) →
        next_of feeder ≡ Ok (Some message) → StandsFor feeder octets earlier →
        StandsFor (after_next feeder) octets (earlier ++ message ∷ []) }
{}

/// A rest that isn't refused is a beginning: where all eight octets of a header came, of a message,
/// and before, of a header.
pub fn a_rest_goes_on()
    ensures header { (place : ℕ) (octets : List ℕ) → ((i : ℕ) → slice_index octets i < 256) →
        fault_of place octets ≡ None → length octets < 8 → BeginsHeader octets }
    ensures message { (place : ℕ) (octets : List ℕ) → ((i : ℕ) → slice_index octets i < 256) →
        fault_of place octets ≡ None → whole_size octets ≡ None → 8 ≤ length octets →
        BeginsMessage octets }
{}

/// The definitions' numbers, written out: with interval 30 and factor 5 a heartbeat is due 30
/// seconds after the last octets sent, and a peer dead 150 seconds after the last ones heard, and
/// neither a picosecond before; a context's spelling; the longest PDU, with one that is an octet
/// longer; and the octets of its message, which are the most that a feeder holds.
pub fn examples()
    ensures due { IsDue (beat_at 30 5 0) (30 * 10 ^ 12) }
    ensures not_due { IsDue (beat_at 30 5 0) (30 * 10 ^ 12 - 1) → ⊥ }
    ensures dead { IsDead (beat_at 30 5 0) (150 * 10 ^ 12) }
    ensures not_dead { IsDead (beat_at 30 5 0) (150 * 10 ^ 12 - 1) → ⊥ }
    ensures context { spelling (context 30 5) ≡ 2 ∷ 0 ∷ 0 ∷ 0 ∷ 0 ∷ 0 ∷ 0 ∷ 12
        ∷ 73 ∷ 83 ∷ 80 ∷ 49 ∷ 0 ∷ 0 ∷ 0 ∷ 1 ∷ 0 ∷ 30 ∷ 0 ∷ 5 ∷ [] }
    ensures longest { (place : ℕ) (body : List ℕ) → length body ≡ 1048576 →
        IsStream place (1 ∷ 0 ∷ 0 ∷ 0 ∷ 0 ∷ 16 ∷ 0 ∷ 0 ∷ body) (pdu body ∷ []) [] None }
    ensures too_long { (place : ℕ) (body : List ℕ) →
        fault_of place (1 ∷ 0 ∷ 0 ∷ 0 ∷ 0 ∷ 16 ∷ 0 ∷ 1 ∷ body) ≡ Some (TooLong 1048577) }
    ensures capacity { room_of fresh ≡ 1048584 }
{}

/// What begins a message is never refused, and is never taken for a whole one.
pub fn a_beginning_is_a_rest()
    ensures { (place : ℕ) (octets : List ℕ) → BeginsMessage octets →
        (fault_of place octets ≡ None) × (whole_size octets ≡ None) }
{}
