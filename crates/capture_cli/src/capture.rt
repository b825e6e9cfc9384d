// Each message of a transcript, as a packet.

use crate::packet::{Place, SEGMENT_OCTETS, put_head, put_packet};
use crate::status::Status;
use explain_lines::{Transcribed, parse_transcript};
use isp1_tml::Messages;
use octet_core::{Sink, Source};
use std::alloc::{AllocError, Global};
use words::Unread;

// The most octets that an input may have.
const MOST_OCTETS: usize = 67_108_864;

// How many octets of the input are asked for at once.
const PIECE_OCTETS: usize = 65_536;

/// Writes the capture file of the transcript on the input.
pub fn capture<I: Source, O: Sink>(alloc: Global, input: &mut I, output: &mut O) -> Status {
    match file_of(alloc, input) {
        Ok(file) => match output.put_all(file.as_slice()) {
            Ok(()) => Status::Done,
            Err(_) => Status::WriteFault,
        },
        Err(status) => status,
    }
}

fn file_of<I: Source>(alloc: Global, input: &mut I) -> Result<Vec<u8>, Status> {
    let lines = read_all(alloc, input)?;
    let mut file = File::new(alloc)?;
    for line in lines.split(|octet| *octet == b'\n') {
        file.take(alloc, line)?;
    }
    Ok(file.octets)
}

// The input to its end.
fn read_all<I: Source>(alloc: Global, input: &mut I) -> Result<Vec<u8>, Status> {
    let mut octets = Vec::new(alloc);
    let mut piece = [0u8; PIECE_OCTETS];
    // (each piece has an octet at least)
    for _ in 0..=MOST_OCTETS {
        let Ok(count) = input.take(&mut piece) else {
            return Err(Status::ReadFault);
        };
        if count == 0 {
            return Ok(octets);
        }
        octets.extend_from_slice(&piece[..count.min(PIECE_OCTETS)])?;
        if octets.len() > MOST_OCTETS {
            return Err(Status::TooLong);
        }
    }
    Err(Status::TooLong)
}

// How many connections a transcript has, with the desk.
const CONNECTIONS: usize = 17;

// A capture file that is being written.
#[derive(Debug, Drop)]
struct File {
    octets: Vec<u8>,
    // The line that was taken last.
    line: u32,
    // The sequence number of each connection's next octet.
    sequences: [u32; CONNECTIONS],
}

impl File {
    fn new(alloc: Global) -> Result<File, AllocError> {
        let mut octets = Vec::new(alloc);
        put_head(&mut octets)?;
        Ok(File {
            octets,
            line: 0,
            sequences: [1; CONNECTIONS],
        })
    }

    // Takes the next line.
    fn take(&mut self, alloc: Global, line: &[u8]) -> Result<(), AllocError> {
        self.line = self.line.saturating_add(1);
        match parse_transcript(alloc, line) {
            Ok(Transcribed::Sent { c, octets }) => self.put_messages(c, octets.as_slice()),
            Ok(_) | Err(Unread::Bad) => Ok(()),
            Err(Unread::Memory) => Err(AllocError),
        }
    }

    // The packets of the messages that these octets spell, and one of what is behind them.
    fn put_messages(&mut self, c: u32, octets: &[u8]) -> Result<(), AllocError> {
        let mut messages = Messages::new(octets, 0);
        let mut number = 0u32;
        let mut begun = 0usize;
        while let Ok(Some(_)) = messages.next_message() {
            let ended = messages.place() as usize;
            if let Some(message) = octets.get(begun..ended) {
                number = self.put_message(c, number, message)?;
            }
            begun = ended;
        }
        if let Some(rest) = octets.get(begun..) {
            self.put_message(c, number, rest)?;
        }
        Ok(())
    }

    // The packets of a message: one, unless it is longer than a segment. Answers how many packets of
    // its line there are then.
    fn put_message(&mut self, c: u32, number: u32, message: &[u8]) -> Result<u32, AllocError> {
        let mut number = number;
        for segment in message.chunks(SEGMENT_OCTETS) {
            let connection = c.min(255) as u8;
            let sequence = self.passed(c, segment.len());
            let place = Place {
                line: self.line,
                number,
                connection,
                sequence,
            };
            put_packet(place, segment, &mut self.octets)?;
            number = number.saturating_add(1);
        }
        Ok(number)
    }

    // The sequence number of the next octets of a connection, which are then passed.
    fn passed(&mut self, c: u32, octets: usize) -> u32 {
        match self.sequences.get_mut(c as usize) {
            Some(next) => {
                let sequence = *next;
                *next = sequence.wrapping_add(octets.min(SEGMENT_OCTETS) as u32);
                sequence
            }
            None => 1,
        }
    }
}
