// Chart files for the tests: two that are written out, and those that are in order but for what a case changes.
use std::test::Fail;

// The header's six numbers: states, letters, arcs, where the state rows and the arc rows begin, and the total. With names to
// its fields each case of a table would take several lines.
pub type Header = [u16; 6];

// A place in a file, and the byte to put there.
pub type Patch = (usize, u8);

// One state, and no byte to spare.
pub const SMALL: Header = [1, 1, 0, 12, 12, 13];

// One state, and as many bytes as a file may have.
pub const LONGEST: Header = [1, 1, 0, 12, 12, 8192];

// A byte more.
pub const TOO_LONG: Header = [1, 1, 0, 12, 12, 8193];

// Three states, two letters and an arc, whose row is at 15.
pub const ONE_ARC: Header = [3, 2, 1, 12, 15, 27];

// The chart that the printing program is run on: its header, its state rows and its arcs.
pub const SAMPLE: &[u8] = b"\
    \x00\x03\x00\x02\x00\x05\x00\x0c\x00\x0f\x00\x4b\
    \x01\x00\x02\
    \x00\x01\x01\x00\x00\x0a\x00\x5a\x00\x00\x00\x01\
    \x01\x01\x00\x00\x00\x05\x00\x32\x00\x00\x00\x02\
    \x01\x02\x02\x00\x00\x14\x00\x50\x00\x00\x00\x04\
    \x00\x02\x00\x00\x00\x07\x00\x3c\x00\x00\x00\x08\
    \x02\x00\x00\x00\x00\x03\x00\x46\x00\x00\x00\x10\
    ";

// Its arcs come before its states with a byte between; two arcs have the same row, at the end of every range.
pub const EDGES: &[u8] = b"\
    \x00\x02\x00\x0f\x00\x03\x00\x31\x00\x0c\x00\x33\
    \x01\x00\x0f\x00\xea\x60\x00\x64\x7f\xff\xff\xff\
    \x01\x00\x0f\x00\xea\x60\x00\x64\x7f\xff\xff\xff\
    \x00\x01\x00\x00\x00\x00\x00\x01\x00\x00\x00\x00\
    \xff\
    \x03\x00\
    ";

// Three states, of which 1 is a start and 2 an end. Silent arcs lead from 1 to 0, from 0 to 0, which is the one with a
// part, and from 0 to 2; the one letter leads back.
pub const RING: &[u8] = b"\
    \x00\x03\x00\x01\x00\x04\x00\x0c\x00\x0f\x00\x3f\
    \x00\x01\x02\
    \x01\x00\x00\x00\x00\x03\x00\x50\x00\x00\x00\x00\
    \x00\x00\x00\x00\x00\x05\x00\x32\x00\x00\x00\x02\
    \x00\x02\x00\x00\x00\x04\x00\x5a\x00\x00\x00\x00\
    \x02\x01\x01\x00\x00\x09\x00\x46\x00\x00\x00\x00\
    ";

// The header's bytes, or as many as there are places for: a file may be too short for them, and for its tables.
fn put_header(file: &mut [u8], header: Header) {
    let bytes = header.into_iter().flat_map(|number| number.to_be_bytes());
    for (place, byte) in file.iter_mut().zip(bytes) {
        *place = byte;
    }
}

// Of zeros alone an arc row lacks only a grade: 1 will do.
fn put_grades(file: &mut [u8], header: Header) {
    let [_, _, arcs, _, rows, _] = header;
    let first = usize::from(rows) + 7;
    let grades = file.iter_mut().skip(first).step_by(12);
    for grade in grades.take(usize::from(arcs)) {
        *grade = 1;
    }
}

// A file of this length under this header, whose rows are good where the patches leave them so.
pub(crate) fn file_of(
    rt: &impl AllocGlobal,
    name: &str,
    header: Header,
    length: usize,
    patches: &[Patch],
) -> Result<Vec<u8>, Fail> {
    let mut file = vec![in rt.alloc(); 0; length]?;
    put_header(file.as_mut_slice(), header);
    put_grades(file.as_mut_slice(), header);
    for (place, byte) in patches {
        // A patch that is lost would leave a case that tests nothing.
        let Some(old) = file.get_mut(*place) else {
            return Err(Fail::new(format_args!("{name}: no byte at {place}")));
        };
        *old = *byte;
    }
    Ok(file)
}
