// One connection at the place of a status page.

use crate::answering::answer;
use http_server::Connection;
use operator_side::is_early;
use status_page::StatusPage;
use std::net::TcpStream;

// How many reads or writes a look makes for one connection at most.
const CALLS: u32 = 16;

// A connection, and the moment at which its time is over.
#[derive(Drop)]
pub(crate) struct Caller {
    pub stream: TcpStream,
    pub connection: Connection,
    pub until: u64,
    pub is_over: bool,
}

impl Caller {
    // Hears what has come, and answers whether something did.
    pub fn hear(&mut self) -> bool {
        let mut heard = false;
        for _ in 0..CALLS {
            if !self.connection.wants_read() {
                break;
            }
            match self.connection.read_from(&mut self.stream) {
                Ok(0) => {
                    heard = true;
                    break;
                }
                Ok(_) => heard = true,
                Err(error) => {
                    self.is_over = self.is_over || !is_early(&error);
                    break;
                }
            }
        }
        heard
    }

    // Answers what was heard.
    pub fn answer(&mut self, page: &mut StatusPage) {
        answer(&mut self.connection, page);
    }

    // Sends what the system takes.
    pub fn tell(&mut self) {
        for _ in 0..CALLS {
            if !self.connection.wants_write() {
                break;
            }
            match self.connection.write_to(&mut self.stream) {
                Ok(0) => {
                    self.is_over = true;
                    break;
                }
                Ok(_) => {}
                Err(error) => {
                    self.is_over = self.is_over || !is_early(&error);
                    break;
                }
            }
        }
        self.is_over = self.is_over || self.connection.is_done();
    }
}
