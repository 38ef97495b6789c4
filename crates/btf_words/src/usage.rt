//! The line that tells how the program is called.

ghost use Rattle.std.specs.Prelude.{◌≡◌};
ghost use Rattle.btf_words.specs.UsageLine.{usage_line as line_of_usage};

/// The line that is written where the words are not taken, with its line end. It names every
/// command with its options.
pub fn usage_line() -> &'static str
    ensures { result.now ≡ line_of_usage }
{
    "btf: usage: btf rank [--drop-zeros] | analyse [--engine E] [--workers W] [--order] [--pairs] [--drop-zeros] [--report V] [--least] | diagonal [--drop-zeros] | check [--drop-zeros] | load --size N --seed S [--engine E] [--workers W] | edit | bottleneck [--drop-zeros]\n"
}
