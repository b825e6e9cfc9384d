// What holds of every line. A law's function does nothing: its contract is the law.
ghost use Rattle.user_line.specs.Laws.{ClapReads};

/// Clap takes each line that has a form, and gives its words in their order.
pub fn clap_reads()
    ensures { ClapReads }
{}
