// Names: a word of the right shape makes one, and no other word does.
use circuit::Name;
use std::test::Fail;

#[test]
fn names_of_words(rt: HostRuntime) -> Result<(), Fail> {
    let heap = rt.alloc();
    for word in ["a", "z9", "abcdefgh"] {
        let name = Name::new(heap, word.as_bytes())?.ok_or("no name")?;
        assert_eq!(rt; name.bytes(), word.as_bytes());
    }
    for word in ["", "9", "9a", "abcdefghi", "aB", "a b"] {
        assert!(rt; Name::new(heap, word.as_bytes())?.is_none(), "{word}");
    }
    Ok(())
}
