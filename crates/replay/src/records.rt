// One record: read to its end, asked about and compared.
use crate::asked;
use crate::kinds::RecordKind;
use refusal::Refusal;
use std::io;
use std::io::{ErrorKind, Read};

// What asking again came to.
#[derive(Clone, Copy)]
pub enum Found {
    Answered,
    Refused,
    Different,
    // The file ends within the record.
    Cut,
}

// Whether so many bytes were there to be read.
pub fn is_read<R: Read>(answers: &mut R, bytes: &mut [u8]) -> io::Result<bool> {
    match answers.read_exact(bytes) {
        Ok(()) => Ok(true),
        Err(why) if why.kind() == ErrorKind::UnexpectedEof => Ok(false),
        Err(why) => Err(why),
    }
}

// A record without its kind's byte, or nothing where the file ends within it.
fn next_record<R: Read, const SIZE: usize>(answers: &mut R) -> io::Result<Option<[u8; SIZE]>> {
    let mut record = [0u8; SIZE];
    if !is_read(answers, &mut record)? {
        return Ok(None);
    }
    Ok(Some(record))
}

// A recorded answer is 0 and the fields, or a refusal's number and zeros in their place.
fn compared<const FIELDS: usize>(ours: Result<[u8; FIELDS], Refusal>, recorded: &[u8]) -> Found {
    let Some((said, rest)) = recorded.split_first() else {
        return Found::Different;
    };
    match &ours {
        Ok(fields) if *said == 0 && rest == fields.as_slice() => Found::Answered,
        Err(why) if *said == u8::from(*why) && rest.iter().all(|byte| *byte == 0) => Found::Refused,
        _ => Found::Different,
    }
}

// kept: an arm for each kind, since no proof is made of a bound `Fn` that names the sizes of its arrays.
pub fn asked_again<R: Read>(answers: &mut R, kind: RecordKind) -> io::Result<Found> {
    let found = match kind {
        RecordKind::HeaderRead => next_record::<R, 77>(answers)?.map(|record| compared(
            asked::header_read(&record),
            &record[46..],
        )),
        RecordKind::StreamRead => next_record::<R, 72>(answers)?.map(|record| compared(
            asked::stream_read(&record),
            &record[46..],
        )),
        RecordKind::PacketRead => next_record::<R, 74>(answers)?.map(|record| compared(
            asked::packet_read(&record),
            &record[46..],
        )),
        RecordKind::HeaderWritten => next_record::<R, 77>(answers)?.map(|record| compared(
            asked::header_written(&record),
            &record[30..],
        )),
        RecordKind::StreamWritten => next_record::<R, 72>(answers)?.map(|record| compared(
            asked::stream_written(&record),
            &record[25..],
        )),
        RecordKind::PacketWritten => next_record::<R, 74>(answers)?.map(|record| compared(
            asked::packet_written(&record),
            &record[27..],
        )),
        RecordKind::AddressRead => next_record::<R, 23>(answers)?.map(|record| compared(
            asked::address_read(&record),
            &record[6..],
        )),
        RecordKind::AddressWritten => next_record::<R, 23>(answers)?.map(|record| compared(
            asked::address_written(&record),
            &record[16..],
        )),
        RecordKind::HeaderSet => next_record::<R, 78>(answers)?.map(|record| compared(
            asked::header_set(&record),
            &record[47..],
        )),
    };
    Ok(found.unwrap_or(Found::Cut))
}
