//! Lock words, and the set of those who wait, by their bits.

use heap_model::{LAST_NUMBER, Lane};
use lock_word::{FatShape, FatWord, LockWord, Shape, WaitMask, is_lane, is_release_number};

// The lock of a word, of either kind.
#[derive(Clone, Copy)]
enum Lock {
    Thin(LockWord),
    Fat(FatWord),
}

// Whether the lock has these bits, and is read of them.
fn is_spelt(lock: Lock, word: u64) -> bool {
    match lock {
        Lock::Thin(lock) => lock.bits() == word && LockWord::parse(word) == Some(lock),
        Lock::Fat(lock) => lock.bits() == word && FatWord::parse(word) == Some(lock),
    }
}

// The first of these words that isn't spelt so, or not read of these bits.
fn first_other(cases: &[(Lock, u64)]) -> Option<u64> {
    for (lock, word) in cases {
        if !is_spelt(*lock, *word) {
            return Some(*word);
        }
    }
    None
}

// Computed by hand from the layout.
#[test]
fn lock_words_are_as_laid_out(rt: HostRuntime) {
    let cases = [
        (Lock::Thin(LockWord::free(0)), 0),
        (Lock::Thin(LockWord::free(1)), 16_777_216),
        (Lock::Thin(LockWord::thin(1, 255, 0)), 511),
        (Lock::Thin(LockWord::thin(3, 255, 7)), 117_441_535),
        (Lock::Thin(LockWord::thin(32_767, 255, 0)), 8_388_607),
        (
            Lock::Thin(LockWord::thin(1, 0, LAST_NUMBER)),
            18_446_744_073_692_774_656,
        ),
        (Lock::Thin(LockWord::fat(0, 0)), 8_388_608),
        (Lock::Thin(LockWord::fat(5, 7)), 125_829_125),
        (
            Lock::Thin(LockWord::fat(1023, LAST_NUMBER)),
            18_446_744_073_701_164_031,
        ),
    ];
    assert!(rt; first_other(&cases).is_none());
}

#[test]
fn fat_words_are_as_laid_out(rt: HostRuntime) {
    let cases = [
        (Lock::Fat(FatWord::free(0)), 0),
        (Lock::Fat(FatWord::free(1)), 16_777_216),
        (Lock::Fat(FatWord::free(3)), 50_331_648),
        (Lock::Fat(FatWord::held(1, 256, 0)), 65_537),
        (Lock::Fat(FatWord::held(2, 0, 1)), 16_777_218),
        (Lock::Fat(FatWord::held(255, 65_535, LAST_NUMBER)), u64::MAX),
    ];
    assert!(rt; first_other(&cases).is_none());
}

// What bits are read as.
#[derive(Clone, Copy)]
enum Kind {
    Lock,
    Fat,
    Mask,
}

// The bits of what these bits are read as, if they are.
fn respelt(kind: Kind, word: u64) -> Option<u64> {
    match kind {
        Kind::Lock => Some(LockWord::parse(word)?.bits()),
        Kind::Fat => Some(FatWord::parse(word)?.bits()),
        Kind::Mask => Some(WaitMask::parse(word)?.bits()),
    }
}

// Locks: a free word with a count, and slots that there aren't. Fat ones: free words with a count. Of a mask only bits 0 to 31
// are lanes.
const UNREAD: [(Kind, u64); 13] = [
    (Kind::Lock, 1),
    (Kind::Lock, 255),
    (Kind::Lock, 16_777_217),
    (Kind::Lock, 8_389_632),
    (Kind::Lock, 16_777_215),
    (Kind::Lock, u64::MAX),
    (Kind::Fat, 256),
    (Kind::Fat, 16_776_960),
    (Kind::Fat, 16_777_472),
    (Kind::Mask, 4_294_967_296),
    (Kind::Mask, 4_294_967_297),
    (Kind::Mask, 9_223_372_036_854_775_808),
    (Kind::Mask, u64::MAX),
];

const READ: [(Kind, u64); 4] = [
    (Kind::Mask, 0),
    (Kind::Mask, 1),
    (Kind::Mask, 2_147_483_649),
    (Kind::Mask, 4_294_967_295),
];

// The first of these words that isn't read as what it spells; or, where none is to be read, the first that is.
fn first_otherwise_read(cases: &[(Kind, u64)], is_read: bool) -> Option<u64> {
    for (kind, word) in cases {
        let wanted = if is_read { Some(*word) } else { None };
        if respelt(*kind, *word) != wanted {
            return Some(*word);
        }
    }
    None
}

#[test]
fn some_words_are_read(rt: HostRuntime) {
    let found = [
        first_otherwise_read(&READ, true),
        first_otherwise_read(&UNREAD, false),
    ];
    assert!(rt; found == [None; 2]);
}

// 256 locks of one thread fill the count of a thin word. It is then given up at once. The bits of both.
fn thin_filled() -> Option<[u64; 2]> {
    let nearly = LockWord::thin(1, 254, 0);
    if !nearly.can_nest() {
        return None;
    }
    let full = nearly.nested();
    if full.can_nest() {
        return None;
    }
    if !full.can_unnest() {
        return None;
    }
    if full.unnested() != nearly {
        return None;
    }
    if !full.can_release() {
        return None;
    }
    Some([full.bits(), full.released().bits()])
}

#[test]
fn a_thin_lock_is_nested_and_released(rt: HostRuntime) {
    let once = LockWord::thin(1, 0, LAST_NUMBER);
    let can = [
        once.can_unnest(),
        once.can_release(),
        LockWord::free(0).can_nest(),
    ];
    assert!(rt; (thin_filled(), can) == (Some([511, 16_777_216]), [false; 3]));
}

fn fat_nested() -> Option<[u64; 2]> {
    let lock = FatWord::held(1, 255, 0);
    if !lock.can_nest() {
        return None;
    }
    let more = lock.nested();
    if !more.can_unnest() {
        return None;
    }
    if more.unnested() != lock {
        return None;
    }
    if !more.can_release() {
        return None;
    }
    Some([more.bits(), more.released().bits()])
}

#[test]
fn a_fat_lock_is_nested_and_released(rt: HostRuntime) {
    let can = [
        FatWord::held(1, 65_535, 0).can_nest(),
        FatWord::held(1, 0, 0).can_unnest(),
        FatWord::free(0).can_release(),
    ];
    assert!(rt; (fat_nested(), can) == (Some([65_537, 16_777_216]), [false; 3]));
}

#[test]
fn shapes_are_told(rt: HostRuntime) {
    let thin = Shape::Thin {
        thread: 3,
        again: 255,
        number: 7,
    };
    let held = FatShape::Held {
        thread: 2,
        again: 0,
        number: 1,
    };
    let found = [
        LockWord::thin(3, 255, 7).shape() == thin,
        FatWord::held(2, 0, 1).shape() == held,
        is_release_number(LAST_NUMBER),
        is_release_number(LAST_NUMBER + 1),
    ];
    assert!(rt; found == [true, true, true, false]);
}

// The bits and the least of a set.
fn told(mask: WaitMask) -> (u64, Option<u8>) {
    match mask.least() {
        Some(lane) => (mask.bits(), Some(lane.0)),
        None => (mask.bits(), None),
    }
}

#[test]
fn masks_are_sets_of_lanes(rt: HostRuntime) {
    let both = WaitMask::empty()
        .with(Lane(31))
        .with(Lane(0))
        .with(Lane(31));
    let last = both.without(Lane(0)).without(Lane(5));
    let sets = [told(both), told(last), told(WaitMask::empty())];
    let has = [
        last.has(Lane(31)),
        last.has(Lane(0)),
        is_lane(Lane(31)),
        is_lane(Lane(32)),
    ];
    let wanted = [
        (2_147_483_649, Some(0)),
        (2_147_483_648, Some(31)),
        (0, None),
    ];
    assert!(rt; (sets, has) == (wanted, [true, false, true, false]));
}
