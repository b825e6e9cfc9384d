// What holds of every task. A law's function does nothing: its contract is the law.
ghost use Rattle.user_task.specs.Laws.{InvocationsInOrder};

/// The invocations of work, from place 0 on, are BIND, START, SCHEDULE-STATUS-REPORT where reports are
/// wanted, a TRANSFER-DATA for each CLTU in its order, STOP and UNBIND, and no more; who only reads
/// has none.
#[tactic(auto, using(crate::proofs::Invocations::in_order))]
pub fn invocations_in_order()
    ensures { InvocationsInOrder }
{}
