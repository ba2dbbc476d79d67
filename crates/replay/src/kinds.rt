// The nine kinds of records, in the order of their numbers in the file.
use std::fmt;
use std::fmt::Display;

#[derive(Clone, Copy)]
pub enum RecordKind {
    HeaderRead,
    StreamRead,
    PacketRead,
    HeaderWritten,
    StreamWritten,
    PacketWritten,
    AddressRead,
    AddressWritten,
    HeaderSet,
}

// There is no such kind.
#[derive(Clone, Copy)]
pub struct UnknownKind;

impl RecordKind {
    pub const ALL: [RecordKind; 9] = [
        RecordKind::HeaderRead,
        RecordKind::StreamRead,
        RecordKind::PacketRead,
        RecordKind::HeaderWritten,
        RecordKind::StreamWritten,
        RecordKind::PacketWritten,
        RecordKind::AddressRead,
        RecordKind::AddressWritten,
        RecordKind::HeaderSet,
    ];

    // The bytes of a record, its kind's byte with them. kept: by the kind, since the place goes on whatever became of the record.
    pub fn size(self) -> u64 {
        match self {
            RecordKind::HeaderRead | RecordKind::HeaderWritten => 78,
            RecordKind::StreamRead | RecordKind::StreamWritten => 73,
            RecordKind::PacketRead | RecordKind::PacketWritten => 75,
            RecordKind::AddressRead | RecordKind::AddressWritten => 24,
            RecordKind::HeaderSet => 79,
        }
    }
}

impl TryFrom<u8> for RecordKind {
    type Error = UnknownKind;

    fn try_from(number: u8) -> Result<RecordKind, UnknownKind> {
        RecordKind::ALL
            .get(usize::from(number))
            .copied()
            .ok_or(UnknownKind)
    }
}

impl Display for RecordKind {
    fn fmt<W: fmt::Write>(&self, f: &mut fmt::Formatter<W>) -> fmt::Result {
        f.write_str(match self {
            RecordKind::HeaderRead => "header read",
            RecordKind::StreamRead => "stream read",
            RecordKind::PacketRead => "packet read",
            RecordKind::HeaderWritten => "header written",
            RecordKind::StreamWritten => "stream written",
            RecordKind::PacketWritten => "packet written",
            RecordKind::AddressRead => "address read",
            RecordKind::AddressWritten => "address written",
            RecordKind::HeaderSet => "header set",
        })
    }
}
