// Laws of the service's answers over the forward machine, each the contract of an empty function: a
// caller has the law by the call.
ghost use Rattle.std.specs.Prelude.{◌≡◌, ℕ, List, IsTrue};
ghost use Rattle.std.specs.List.{list_all};
ghost use Rattle.cltu_queue.specs.declared.cltu.Cltu.{Cltu};
ghost use Rattle.cltu_queue.specs.declared.ask.Ask.TheVariants.{CltuStart, CltuTransfer};
ghost use Rattle.cltu_queue.specs.Machine.{Machine, new_machine};
ghost use Rattle.cltu_queue.specs.Forward.{Event};
ghost use Rattle.cltu_queue.specs.Run.{after};
ghost use Rattle.fcltu_service.specs.Service.{Service, answer_of};
ghost use Rattle.fcltu_service.specs.Invocation.{start, transfer};
ghost use Rattle.fcltu_service.specs.Causes.{reply_of, first_cause, start_causes};
ghost use Rattle.fcltu_service.specs.Causes.{transfer_causes, start_answered, transfer_answered};
ghost use Rattle.fcltu_service.specs.Causes.{is_of_queue};

/// A START and a TRANSFER-DATA are refused for the first cause that holds of the queue, and else
/// done: a START at its moment; a TRANSFER-DATA with the queue's room behind the CLTU, which leaves
/// as many octets free as there were less the CLTU's own.
pub fn answers_are_by_the_first_cause()
    ensures start { (s : Service) (m : Machine) (first now : ℕ)
        → answer_of s (start first) (reply_of m now (CltuStart first)) now
        ≡ start_answered now (first_cause (start_causes m)) }
    ensures transfer { (s : Service) (m : Machine) (cltu : Cltu) (now : ℕ)
        → answer_of s (transfer cltu) (reply_of m now (CltuTransfer cltu)) now
        ≡ transfer_answered m cltu (first_cause (transfer_causes m cltu now)) }
{}

/// Whatever the events since a queue was made, each notice that waits is of a kind that carries no
/// number of an event.
pub fn no_notice_is_of_an_event()
    ensures { (room longest : ℕ) (events : List Event)
        → IsTrue (list_all is_of_queue (after (new_machine room longest) events).notices) }
{}
