//! The rules tried on examples.
ghost use Rattle.directory.specs.Ticks.{Ordered};

use super::*;

// Puts a line into the victim of its set, unless a way holds it.
fn fill(directory: &mut Directory, line: u32) -> WayNumber {
    let victim = directory.victim(line);
    if let None = directory.lookup(line) {
        directory.install(line, victim, false, [7; 8]);
    }
    victim
}

#[test]
fn five_lines_of_one_set(rt: HostRuntime) {
    let mut directory = Directory::new();
    let ways = [
        fill(&mut directory, 2500),
        fill(&mut directory, 196),
        fill(&mut directory, 452),
        fill(&mut directory, 708),
    ];
    assert_eq!(rt;
        ways,
        [
            WayNumber::Zero,
            WayNumber::Two,
            WayNumber::One,
            WayNumber::Three,
        ]
    );
    let before = directory.lookup(2500);
    let fifth = fill(&mut directory, 964);
    assert_eq!(rt;
        (before, fifth, directory.lookup(2500)),
        (Some(WayNumber::Zero), WayNumber::Zero, None)
    );
    assert_eq!(rt; directory.valid_ways(), 4);
}

#[test]
fn word_20003(rt: HostRuntime) {
    let mut directory = Directory::new();
    let miss = Fill::new(20_003, directory.victim(2500), true);
    assert_eq!(rt; (miss.line, miss.first), (2500, 3));
    fill(&mut directory, miss.line);
    let tags = [
        tag_at(&directory, 196, 0),
        tag_at(&directory, 256, 0),
        tag_at(&directory, 0, 4),
    ];
    assert_eq!(rt; tags, [Some(9), None, None]);
    directory.drop_line(2500);
    assert_eq!(rt; tag_at(&directory, 196, 0), Some(0));
}

fn tag_at(directory: &Directory, set: u32, way: u32) -> Option<u32> {
    Some(directory.inspect(set, way)?.tag)
}

// Fetches the next word, or tells 0 where the fill lacks none.
fn fetch(fill: &mut Fill) -> u32
    requires { Ordered fill.old }
    ensures { Ordered fill.new }
{
    if fill.is_complete() {
        return 0;
    }
    let word = fill.next_word();
    fill.store(7);
    word
}

#[test]
fn fill_from_offset_5(rt: HostRuntime) {
    let mut fill = Fill::new(20_005, WayNumber::Zero, false);
    let early = fill.fetched(20_003);
    let order = [
        fetch(&mut fill),
        fetch(&mut fill),
        fetch(&mut fill),
        fetch(&mut fill),
        fetch(&mut fill),
        fetch(&mut fill),
        fetch(&mut fill),
        fetch(&mut fill),
        fetch(&mut fill),
    ];
    assert_eq!(rt;
        order,
        [
            20_005, 20_004, 20_007, 20_006, 20_001, 20_000, 20_003, 20_002, 0,
        ]
    );
    assert_eq!(rt; (early, fill.fetched(20_003)), (None, Some(7)));
}
