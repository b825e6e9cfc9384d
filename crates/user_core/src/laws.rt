// What holds of every user. A law's function does nothing: its contract is the law.
ghost use Rattle.user_core.specs.Laws.{OffersInOrder, OneAnswer, EndsForGood, PrintsInOrder, EndsWhenAsked};
ghost use Rattle.user_core.specs.Laws.{LinesInOrder};

use isp1_tml::laws as stream;

/// Over every list of turns, what is offered is BIND after the context, START,
/// SCHEDULE-STATUS-REPORT where reports are wanted, a TRANSFER-DATA for each CLTU, STOP and UNBIND as
/// far as they were said, in this order, each once, with its invoke
/// identifier and its credentials, and heartbeats between them.
#[tactic(auto, using(crate::proofs::Spoken::offers_in_order))]
pub fn offers_in_order()
    ensures { OffersInOrder }
{}

/// A message is answered by at most one invocation, which is the next; what asks for reports may come
/// before that.
#[tactic(auto, using(crate::proofs::Spoken::one_answer))]
pub fn one_answer()
    ensures { OneAnswer }
{}

/// One who receives frames and was asked to end awaits a return from then on, until it is over: so
/// it says STOP once START's return came, and UNBIND once STOP's did.
#[tactic(auto, using(crate::proofs::Asked::ends_when_asked))]
pub fn ends_when_asked()
    ensures { EndsWhenAsked }
{}

/// Behind its end a user offers nothing and prints nothing, whatever it hears.
pub fn ends_for_good()
    ensures { EndsForGood }
{}

/// Of the messages that came whole in a turn each is printed once, in order, up to the one that ends
/// the user: the lines begin those of the messages, and are all of them where the user goes on.
#[tactic(auto, using(crate::proofs::Printed::prints_in_order))]
pub fn prints_in_order()
    ensures { PrintsInOrder }
{}

/// Over every list of turns, in whatever pieces the stream comes, what is printed begins the lines of
/// that one stream, each message's once and in order, and is all of them where the user goes on. One
/// who only reads is told of a message that is cut at the stream's end.
pub fn lines_in_order()
    ensures { LinesInOrder }
{
    stream::each_is_read();
    stream::is_worked_out();
    stream::goes_on();
    stream::refused_for_good();
}
