//! What the definitions promise by themselves: a law, which no code calls.
ghost use Rattle.mast_cli.specs.Laws.{OneOutcome, SomeOutcome};

use mast_tables::files_have_one_answer;

/// Words and the contents of files have one status, and one text but for which conflict is printed. They have an outcome,
/// for `check` where what was read has an answer.
pub fn outcomes_are_one()
    ensures some { SomeOutcome }
    ensures one { OneOutcome }
{
    files_have_one_answer();
}
