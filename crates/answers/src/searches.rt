// Entries whose answers were worked out beforehand, and covers, by the calls of the library.
use crate::expect::{circuit_of, stuck_at};
use folder::{Folder, State};
use simulator::Socket;
use std::alloc::Global;
use std::process::Abort;
use std::test::Fail;
use values::five::Five;
use values::kind::ValueKind;
use values::nine::Nine;
use values::seven::Seven;

const SELECTED: &str = "(inputs a s)\n(gate y (or (and s a) s))\n(outputs y)\n";

const MULTIPLEXER: &str = "(inputs a b s)\n(gate y (or (and a (not s)) (and b s)))\n(outputs y)\n";

const ABSORBED: &str = "(inputs a b)\n(gate p (and a b))\n(gate y (or a p))\n(outputs y)\n";

const WIRE: &str = "(inputs a)\n(outputs a)\n";

// A circuit, a fault by line, pin and level, a budget; and the state that the entry is in afterwards, with its cube's driven word
// and level word and its tries. (A row of a table: fields with names would make ten lines of it. The state stands by its word and the
// cube by its words, since a constant can hold no cube: its fields are its own crate's.)
#[derive(Clone, Copy)]
struct Search(
    &'static str,
    [usize; 3],
    usize,
    &'static str,
    Option<[u64; 2]>,
    usize,
);

const BY_NINE: [Search; 11] = [
    Search(SELECTED, [1, 0, 0], 100, "fewest", Some([2, 2]), 7),
    Search(SELECTED, [1, 0, 1], 100, "fewest", Some([2, 0]), 5),
    Search(SELECTED, [1, 0, 1], 4, "spent", Some([3, 0]), 4),
    Search(SELECTED, [3, 2, 0], 100, "fewest", Some([3, 2]), 7),
    Search(ABSORBED, [2, 0, 0], 100, "redundant", None, 5),
    Search(MULTIPLEXER, [2, 0, 0], 100, "fewest", Some([7, 6]), 21),
    Search(MULTIPLEXER, [2, 0, 0], 5, "spent", None, 5),
    Search(MULTIPLEXER, [2, 0, 0], 6, "spent", Some([7, 6]), 6),
    Search(MULTIPLEXER, [2, 0, 0], 20, "spent", Some([7, 6]), 20),
    Search(WIRE, [0, 0, 0], 100, "fewest", Some([1, 1]), 3),
    Search(WIRE, [0, 0, 1], 100, "fewest", Some([1, 0]), 2),
];

const BY_SEVEN: [Search; 4] = [
    Search(SELECTED, [1, 0, 0], 100, "fewest", Some([3, 2]), 7),
    Search(SELECTED, [1, 0, 1], 100, "fewest", Some([2, 0]), 5),
    Search(ABSORBED, [2, 0, 0], 100, "redundant", None, 5),
    Search(MULTIPLEXER, [2, 0, 0], 100, "fewest", Some([7, 6]), 21),
];

const BY_FIVE: [Search; 4] = [
    Search(SELECTED, [1, 0, 0], 100, "fewest", Some([3, 2]), 7),
    Search(SELECTED, [1, 0, 1], 100, "fewest", Some([3, 0]), 6),
    Search(ABSORBED, [2, 0, 0], 100, "redundant", None, 5),
    Search(MULTIPLEXER, [2, 0, 0], 100, "fewest", Some([7, 6]), 21),
];

fn folder_of(heap: Global, text: &str) -> Result<Folder, Fail> {
    Ok(Folder::new(heap, circuit_of(heap, text)?))
}

fn expect_searches<V: ValueKind>(
    rt: &impl Abort,
    heap: Global,
    row: &mut [V],
    searches: &[Search],
) -> Result<(), Fail> {
    let mut socket = Socket::new();
    for search in searches {
        let Search(text, [line, pin, level], budget, word, cube, tries) = *search;
        let mut folder = folder_of(heap, text)?;
        let number = folder.enter(stuck_at(line, pin, level))?;
        let _ = folder.search(number, budget, &mut socket, row)?;
        let entry = folder.entry(number).ok_or("no entry")?;
        let state = format!(in heap; "{}", entry.state())?;
        let words = entry.cube().map(|cube| [cube.driven(), cube.level()]);
        assert_eq!(rt; (state.as_str(), words, entry.count()), (word, cube, tries));
    }
    Ok(())
}

#[test]
fn known_searches(rt: HostRuntime) -> Result<(), Fail> {
    let heap = rt.alloc();
    expect_searches(&rt, heap, &mut [Nine::unknown(); 7], &BY_NINE)?;
    expect_searches(&rt, heap, &mut [Seven::unknown(); 7], &BY_SEVEN)?;
    expect_searches(&rt, heap, &mut [Five::unknown(); 7], &BY_FIVE)
}

// The cube 11 of an and gate's stuck input shows the stuck output too, and not an input stuck at 1.
#[test]
fn covered_entries(rt: HostRuntime) -> Result<(), Fail> {
    let heap = rt.alloc();
    let mut folder = folder_of(heap, "(inputs a b)\n(gate y (and a b))\n(outputs y)\n")?;
    let mut socket = Socket::new();
    let mut row = [Nine::unknown(); 3];
    let first = folder.enter(stuck_at(0, 0, 0))?;
    let output = folder.enter(stuck_at(2, 0, 0))?;
    let other = folder.enter(stuck_at(0, 0, 1))?;
    let _ = folder.search(first, 1000, &mut socket, &mut row)?;
    let marked = folder.cover(first, &mut socket, &mut row)?;
    assert_eq!(rt; marked, 1);
    let entry = folder.entry(output).ok_or("no entry")?;
    assert_eq!(rt; entry.state(), State::Covered { by: first });
    let entry = folder.entry(other).ok_or("no entry")?;
    assert_eq!(rt; entry.state(), State::Open);
    Ok(())
}
