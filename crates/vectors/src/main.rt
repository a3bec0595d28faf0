// Runs the stored cases (tests/README.md): each names a call and gives it its bytes; what the calls answer and leave is printed.
#![tactic(auto)]

use cases::Call;
use directory::Place;
use geometry::{Disk, SupportSet, SupportedDisk};
use std::{io, num};
use wide_numbers::Wide;

fn print_preview(rt: &impl Print, found: SupportedDisk) -> io::Result<()> {
    match preview::preview_of(found) {
        Ok(p) => {
            let [x, y, radius] = [p.x, p.y, p.radius].map(|v| num::f64_to_bits_with_nan(v));
            println!(rt; "preview {x:016x} {y:016x} {radius:016x}")
        }
        Err(refusal) => println!(rt; "{refusal}"),
    }
}

fn print_part(rt: &impl Print, sheet: &[u8], place: Place) -> io::Result<()> {
    let bytes = sheet::part(sheet, place);
    println!(rt; "bytes {} {}", bytes.len(), checksum::of(bytes))
}

// S: a glyph number in two bytes, then the sheet.
fn run_sheet(rt: &impl Print, bytes: &[u8]) -> io::Result<()> {
    let Some((number, sheet)) = bytes.split_at_checked(2) else {
        return Ok(());
    };
    match sheet::glyph(sheet, cases::length_at(number, 0)) {
        Ok(place) => {
            println!(rt; "part {} {}", place.start, place.len)?;
            print_part(rt, sheet, place)
        }
        Err(refusal) => println!(rt; "{refusal}"),
    }
}

// P: a start and a length in eight bytes each, then the sheet.
fn run_part(rt: &impl Print, bytes: &[u8]) -> io::Result<()> {
    let Some((head, sheet)) = bytes.split_at_checked(16) else {
        return Ok(());
    };
    let start = cases::word_at(head, 0) as usize;
    let len = cases::word_at(head, 8) as usize;
    print_part(rt, sheet, Place { start, len })
}

// The number of points stands in byte 1, the points from byte 42 on.
fn support_of(bytes: &[u8]) -> SupportSet {
    let [a, b, c] = [42, 46, 50].map(|at| cases::point_at(bytes, at));
    match bytes.get(1) {
        Some(1) => SupportSet::One(a),
        Some(2) => SupportSet::Two(a, b),
        _ => SupportSet::Three(a, b, c),
    }
}

fn disk_of(bytes: &[u8]) -> Disk {
    let x = cases::signed_word_at(bytes, 2);
    let y = cases::signed_word_at(bytes, 10);
    let e = cases::word_at(bytes, 18);
    let hi = cases::word_at(bytes, 26);
    let lo = cases::word_at(bytes, 34);
    let s = Wide { hi, lo };
    Disk { x, y, e, s }
}

// Whole radius, preview, and the record in the buffer.
fn print_results(rt: &impl Print, found: SupportedDisk, buffer: &mut [u8]) -> io::Result<()> {
    printing::print_answer(rt, "whole", radius::whole_radius(found))?;
    print_preview(rt, found)?;
    match record_writer::write_record(found, buffer) {
        Ok(()) => println!(rt; "written")?,
        Err(refusal) => println!(rt; "{refusal}")?,
    }
    println!(rt; "buffer {}", checksum::of(buffer))
}

// R: a record, through the reader; what is read goes through whole radius, preview and writer.
fn run_reader(rt: &impl Print, bytes: &[u8]) -> io::Result<()> {
    match record_reader::read_record(bytes) {
        Ok(found) => {
            println!(rt; "disk {}\nrim {}", found.disk, found.support)?;
            print_results(rt, found, &mut [238u8; 64])
        }
        Err(refusal) => println!(rt; "{refusal}"),
    }
}

// W: the length of a buffer, the number of points, a disk and three points, through whole radius, preview and writer.
fn run_writer(rt: &impl Print, bytes: &[u8]) -> io::Result<()> {
    let [room, _, ..] = bytes else {
        return Ok(());
    };
    let disk = disk_of(bytes);
    let support = support_of(bytes);
    let mut buffer = [238u8; 256];
    print_results(
        rt,
        SupportedDisk { disk, support },
        &mut buffer[..usize::from(*room)],
    )
}

// A match: a table of closures would name each call once more, and say no more of it.
fn run_case(rt: &impl Print, call: Call, bytes: &[u8]) -> io::Result<()> {
    match call {
        Call::Listing => list_cases::run_listing(rt, bytes),
        Call::Engine => list_cases::run_engine(rt, bytes),
        Call::Loader => list_cases::run_loader(rt, bytes),
        Call::Fixed => list_cases::run_fixed(rt, bytes),
        Call::Chosen => chosen_cases::run_chosen(rt, bytes),
        Call::Traced => traced_cases::run_traced(rt, bytes),
        Call::Hull => hull_cases::run_hull(rt, bytes),
        Call::Stretch => stretch_cases::run_stretch(rt, bytes),
        Call::Append => list_cases::run_append(rt, bytes),
        Call::Run => run_cases::run_allowed(rt, bytes),
        Call::Estimate => estimate_cases::estimate_listed(rt, bytes),
        Call::Sheet => run_sheet(rt, bytes),
        Call::Part => run_part(rt, bytes),
        Call::Reader => run_reader(rt, bytes),
        Call::Writer => run_writer(rt, bytes),
    }
}

// A proved loop has to end, and nothing says that the input does: so the cases are counted. A letter that stands for no call is passed over.
fn main(rt: HostRuntime) -> io::Result<()> {
    let mut input = rt.reader();
    let mut buffer = [0u8; 65548];
    for _ in 0..u64::MAX {
        let Some(case) = cases::read_case(&mut input, &mut buffer) else {
            return Ok(());
        };
        if let Some(call) = case.call {
            // Output that cannot be written is passed over.
            let _ = run_case(&rt, call, case.bytes);
        }
    }
    Ok(())
}
