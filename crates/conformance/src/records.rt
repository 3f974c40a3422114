// The record of an arc on both sides of every limit.
use weights::arcs::ArcRecord;

// Minutes, grade and parts, and whether there is a record of them.
struct Case(&'static str, u16, u16, u32, bool);

static RECORDS: [Case; 14] = [
    Case("most", 60_000, 100, 0x7fff_ffff, true),
    Case("minutes 60000", 60_000, 1, 0, true),
    Case("minutes 60001", 60_001, 1, 0, false),
    Case("minutes 65535", 65_535, 1, 0, false),
    Case("grade 0", 0, 0, 0, false),
    Case("grade 1", 0, 1, 0, true),
    Case("grade 100", 0, 100, 0, true),
    Case("grade 101", 0, 101, 0, false),
    Case("grade 256", 0, 256, 0, false),
    Case("grade 257", 0, 257, 0, false),
    Case("grade 65535", 0, 65_535, 0, false),
    Case("parts 7fff_ffff", 0, 1, 0x7fff_ffff, true),
    Case("parts 8000_0000", 0, 1, 0x8000_0000, false),
    Case("parts ffff_ffff", 0, 1, 0xffff_ffff, false),
];

#[test]
fn arc_records(rt: HostRuntime) {
    for case in &RECORDS {
        let Case(name, minutes, grade, parts, made) = *case;
        let record = ArcRecord::new(minutes, grade, parts);
        assert_eq!(rt; record.is_some(), made, "{name}");
    }
}
