// Making a record and reading it. It stands apart from the struct, since its contracts cite files that name the struct.
ghost use Rattle.std.specs.Prelude.{◌≡◌};
ghost use Rattle.weights.specs.Records.{Recorded};

use super::ArcRecord;

impl ArcRecord {
    // A record of the three numbers, or none where one of them is out of its range.
    pub fn new(minutes: u16, grade: u16, parts: u32) -> Option<ArcRecord>
        ensures { Recorded minutes grade parts result }
    {
        if minutes <= 60_000 && (1..=100).contains(&grade) && parts < 0x8000_0000 {
            Some(ArcRecord {
                minutes,
                grade: grade as u8,
                parts,
            })
        } else {
            None
        }
    }

    pub fn minutes(self) -> u16
        ensures { result ≡ self.minutes }
    {
        self.minutes
    }

    pub fn grade(self) -> u8
        ensures { result ≡ self.grade }
    {
        self.grade
    }

    // The spare parts that the arc asks for, a bit for each.
    pub fn parts(self) -> u32
        ensures { result ≡ self.parts }
    {
        self.parts
    }
}
