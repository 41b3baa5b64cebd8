//! The graph against the plain search, on legal lists of records that a fixed seed chooses, with forgetting in between.

ghost use Rattle.std.specs.Prelude.{◌<◌};

use crate::graphs::told::Told;
use dependence::Dependence;
use heap_model::{Cut, Lane, LaneRecord, ObjectId, Record};
use law_cuts::plain;
use std::alloc::{AllocError, Global};

const LANES: usize = 3;

const OBJECTS: usize = 4;

// Numbers that look random and are the same in each run.
#[derive(Drop)]
struct Chooser {
    state: u64,
}

impl Chooser {
    fn below(&mut self, bound: usize) -> usize
        requires { 0 < bound }
        ensures { result < bound }
    {
        self.state = self
            .state
            .wrapping_mul(6_364_136_223_846_793_005)
            .wrapping_add(1_442_695_040_888_963_407);
        (self.state >> 33) as usize % bound
    }
}

// Who holds each object, at which number, and on what each lane waits.
#[derive(Drop)]
struct Monitors {
    holders: [Option<u8>; 4],
    numbers: [u64; 4],
    awaited: [Option<usize>; 3],
}

impl Monitors {
    // The lane's next record on the object, if there is one: a take, or else a release or a wait.
    fn step(&mut self, lane: usize, object: usize, waits: bool) -> Option<Record>
        requires lane { lane < 3 }
        requires object { object < 4 }
    {
        let id = ObjectId(object as u32);
        let number = self.numbers[object];
        match self.holders[object] {
            None => {
                self.holders[object] = Some(lane as u8);
                self.awaited[lane] = None;
                Some(Record::Acq { object: id, number })
            }
            Some(holder) if holder == lane as u8 && self.awaited[lane].is_none() => {
                self.holders[object] = None;
                self.numbers[object] = number.wrapping_add(1);
                if waits {
                    self.awaited[lane] = Some(object);
                    Some(Record::WaitRel { object: id, number })
                } else {
                    Some(Record::Rel { object: id, number })
                }
            }
            Some(_) => None,
        }
    }

    // The next record of some lane, if the lane that was chosen can go on.
    fn choose(&mut self, chooser: &mut Chooser) -> Option<LaneRecord> {
        let lane = chooser.below(LANES);
        let object = match self.awaited[lane] {
            Some(object) if object < OBJECTS => object,
            _ => chooser.below(OBJECTS),
        };
        let waits = chooser.below(5) == 0;
        let record = self.step(lane, object, waits)?;
        Some(LaneRecord {
            lane: Lane(lane as u8),
            record,
        })
    }
}

fn list(alloc: Global, seed: u64, count: usize) -> Result<Vec<LaneRecord>, AllocError> {
    let mut chooser = Chooser { state: seed };
    let mut monitors = Monitors {
        holders: [None; 4],
        numbers: [0; 4],
        awaited: [None; 3],
    };
    let mut records = Vec::new(alloc);
    for _ in 0..count {
        if let Some(next) = monitors.choose(&mut chooser) {
            records.push(next)?;
        }
    }
    Ok(records)
}

// A record, its section, and whether that ends with it. A lane's sections are numbered from 1.
#[derive(Clone, Copy)]
struct Placed {
    section: Dependence,
    record: Record,
    ends: bool,
}

// Each record with its section. A lane holds as many objects as it has taken and not freed.
fn with_sections(alloc: Global, records: &[LaneRecord]) -> Result<Vec<Placed>, AllocError> {
    let mut held = [0u32; 3];
    let mut ended = [0u64; 3];
    let mut all = Vec::new(alloc);
    for entry in records {
        let lane = entry.lane.0 as usize % LANES;
        let ends = entry.record.is_section_end(held[lane]);
        all.push(Placed {
            section: Dependence {
                lane: entry.lane,
                section: ended[lane].wrapping_add(1),
            },
            record: entry.record,
            ends,
        })?;
        held[lane] = match entry.record {
            Record::Acq { .. } => held[lane].wrapping_add(1),
            Record::Rel { .. } | Record::WaitRel { .. } => held[lane].wrapping_sub(1),
            Record::Put { .. } => held[lane],
        };
        ended[lane] = ended[lane].wrapping_add(u64::from(ends));
    }
    Ok(all)
}

fn is_in(cut: &Cut, section: Dependence) -> bool {
    match cut.counts.get(section.lane.0 as usize) {
        Some(count) => section.section <= *count,
        None => false,
    }
}

// The section that freed the object at this number.
fn releaser(all: &[Placed], object: ObjectId, number: u64) -> Option<Dependence> {
    for one in all {
        match one.record {
            Record::Rel {
                object: freed,
                number: at,
            }
            | Record::WaitRel {
                object: freed,
                number: at,
            } if freed == object && at == number => return Some(one.section),
            _ => (),
        }
    }
    None
}

// What one record of a section outside the cut depends on outside of it.
fn outside(all: &[Placed], cut: &Cut, one: Placed) -> Option<Dependence> {
    let Record::Acq { object, number } = one.record else {
        return None;
    };
    let before = number.checked_sub(1)?;
    let giver = releaser(all, object, before)?;
    if giver == one.section || is_in(cut, giver) {
        None
    } else {
        Some(giver)
    }
}

// The reason by looking through all records.
fn plain_reason(all: &[Placed], cut: &Cut, section: Dependence) -> Option<Dependence> {
    let previous = Dependence {
        lane: section.lane,
        section: section.section.wrapping_sub(1),
    };
    if is_in(cut, section) {
        return None;
    }
    if previous.section > 0 && !is_in(cut, previous) {
        return Some(previous);
    }
    for one in all {
        if one.section == section {
            if let Some(giver) = outside(all, cut, *one) {
                return Some(giver);
            }
        }
    }
    None
}

// How many of the lane's sections have ended.
fn ended(all: &[Placed], lane: Lane) -> u64 {
    all.iter()
        .filter(|one| one.section.lane == lane && one.ends)
        .count() as u64
}

// How many of the lane's sections have a reason, if each is that of the plain search. A section that hasn't ended has none.
fn reasons(told: &mut Told, all: &[Placed], cut: &Cut, lane: Lane) -> Option<u64> {
    let whole = ended(all, lane);
    let mut given = 0u64;
    for section in 1..whole.wrapping_add(1) {
        let reason = told.reason(lane, section);
        if reason != plain_reason(all, cut, Dependence { lane, section }) {
            return None;
        }
        given = given.wrapping_add(u64::from(reason.is_some()));
    }
    match told.reason(lane, whole.wrapping_add(1)) {
        None => Some(given),
        Some(_) => None,
    }
}

fn plain_cut(alloc: Global, records: &[LaneRecord]) -> Option<Cut> {
    if records.iter().all(|entry| entry.lane.0 < 32) {
        plain::stable_cut(alloc, records).ok()
    } else {
        None
    }
}

// How many sections have a reason, if the cut of these records and the reasons of all their sections are those of the
// plain search.
fn compare(alloc: Global, told: &mut Told, records: &[LaneRecord]) -> Option<u64> {
    let cut = plain_cut(alloc, records)?;
    if told.stable_cut()? != cut {
        return None;
    }
    let all = with_sections(alloc, records).ok()?;
    let mut given = 0u64;
    for lane in 0..3u8 {
        given = given.wrapping_add(reasons(told, &all, &cut, Lane(lane))?);
    }
    Some(given)
}

// How many reasons are given in all for one list, with an answer after each five records. Each 20 records what is stable is
// forgotten.
fn reasons_of_list(alloc: Global, seed: u64) -> Option<u64> {
    let records = list(alloc, seed, 120).ok()?;
    let mut told = Told::of(alloc, 3, records.len())?;
    let mut given = 0u64;
    for (count, next) in records.iter().enumerate() {
        told.push(next.lane, next.record);
        if count % 5 == 0 {
            let more = compare(alloc, &mut told, &records[..count + 1])?;
            given = given.wrapping_add(more);
        }
        if count % 20 == 19 {
            told.forget();
        }
    }
    Some(given)
}

fn reasons_of_lists(alloc: Global) -> Option<u64> {
    let mut given = 0u64;
    for seed in 1..13u64 {
        given = given.wrapping_add(reasons_of_list(alloc, seed)?);
    }
    Some(given)
}

// The lists have to be such that sections stay outside the cut.
#[test]
fn chosen_lists_have_the_plain_cuts_and_reasons(rt: HostRuntime) {
    assert!(rt; reasons_of_lists(rt.alloc()).unwrap_or(0) > 100);
}
