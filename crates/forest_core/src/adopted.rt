//! A matching that is kept beside the base until the base is renewed.

ghost use Rattle.std.specs.Prelude.{◌≡◌, None};
ghost use Rattle.forest_core.specs.Adopted.{Replaces};

use bip_graph::Matching;

/// The base matching with the paths of the first flipped roots exchanged, and how many roots these
/// are.
#[derive(Drop)]
pub struct Adopted {
    pub matching: Matching,
    pub flips: usize,
}

/// Puts an adopted matching in the base's place. The number of flipped roots whose paths are
/// exchanged in it, 0 where none was adopted.
pub fn replace_base(base: &mut Matching, adopted: &mut Option<Adopted>) -> usize
    ensures base { Replaces adopted.old base.old base.new result }
    ensures none { adopted.new ≡ None }
{
    match adopted.take() {
        Some(adopted) => {
            *base = adopted.matching;
            adopted.flips
        }
        None => 0,
    }
}
