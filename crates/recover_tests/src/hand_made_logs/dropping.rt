//! The dropped sections of images with hand-made logs. The reasons and numbers follow from the rules at `Dropped` and `Why`.
use super::{acq, image_with, rel, row, store};
use heap_model::{Lane, UndoRecord};
use image::LaneRow;
use recover::{Dropped, Why, study};
use std::alloc::Global;

// Whether these are the dropped sections of the image with these logs of its two lanes.
fn are_dropped(
    alloc: Global,
    rows: [LaneRow; 2],
    first: &[UndoRecord],
    second: &[UndoRecord],
    wanted: &[Dropped],
) -> Option<bool> {
    let mut disk = image_with(alloc, rows, first, second)?;
    let found = study(alloc, &mut disk).ok();
    drop(disk);
    let found = found?;
    let are_so = found.report.dropped.as_slice() == wanted;
    drop(found);
    Some(are_so)
}

fn dropped(lane: u8, section: u64, why: Why) -> Dropped {
    Dropped {
        lane: Lane(lane),
        section,
        why,
    }
}

fn after(lane: u8, section: u64) -> Why {
    Why::After {
        lane: Lane(lane),
        section,
    }
}

// Two sections of the first lane come before its live ones, and one of the second lane.
#[test]
fn each_section_has_its_reason(rt: HostRuntime) {
    let first = [
        acq(0, 5),
        store(0),
        rel(0, 5),
        acq(3, 0),
        rel(3, 0),
        acq(0, 7),
        rel(0, 7),
        acq(2, 0),
        rel(2, 0),
    ];
    let second = [
        acq(1, 3),
        rel(1, 3),
        acq(0, 6),
        acq(1, 4),
        rel(0, 6),
        store(1),
    ];
    let rows = [row(3, 9, 3), row(2, 6, 2)];
    let wanted = [
        dropped(0, 4, Why::Unsettled),
        dropped(0, 5, after(1, 3)),
        dropped(0, 6, after(0, 5)),
        dropped(1, 3, Why::Unfinished),
    ];
    assert!(rt; are_dropped(rt.alloc(), rows, &first, &second, &wanted) == Some(true));
}
