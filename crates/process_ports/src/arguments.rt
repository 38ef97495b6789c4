//! The words that a program is called with.

ghost use Rattle.std.specs.Prelude.{◌≡◌, drop};

use std::env::{self, Env};
use std::io;

/// The words behind the program's name, or why there are none: memory ran out, or one of them is
/// not UTF-8. What words the system has is told by no clause.
pub fn words<R: Env + AllocGlobal>(rt: &R) -> io::Result<Vec<String>> {
    let mut words = Vec::new(rt.alloc());
    for word in env::args(rt)? {
        words.push(word)?;
    }
    Ok(behind_name(words))
}

/// The words behind the first of them, which is the program's name.
fn behind_name(words: Vec<String>) -> Vec<String>
    ensures { result.items ≡ drop 1 words.items }
{
    let mut words = words;
    if !words.is_empty() {
        drop(words.remove(0));
    }
    words
}

#[cfg(test)]
mod tests {
    use super::behind_name;
    use std::test::Fail;

    #[test]
    fn the_name_is_no_word(rt: HostRuntime) -> Result<(), Fail> {
        let alloc = rt.alloc();
        let mut all = Vec::new(alloc);
        for word in ["btf", "rank", "btf"] {
            all.push(String::from_str(alloc, word)?)?;
        }
        let words = behind_name(all);
        assert_eq!(rt; words.len(), 2);
        assert_eq!(rt; words[0].as_str(), "rank");
        assert_eq!(rt; words[1].as_str(), "btf");
        assert_eq!(rt; behind_name(Vec::new(alloc)).len(), 0);
        Ok(())
    }
}
