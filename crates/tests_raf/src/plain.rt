// A plain program of an instance of RAF: it counts in the list of all that is picked, and goes over it
// anew in each round. No START here has times, so that no stop closes.
use sle_numbers::ReturnDeliveryMode;

/// A START that runs: its quality as a digit and the front of its round; how many of the picked
/// entries are settled, how many are held behind them, whether a backlog heads these, whether one is
/// to be told, whether the buffer is fixed, and when its first item was put.
#[derive(Clone, Copy)]
struct Run {
    quality: u8,
    first: usize,
    settled: usize,
    held: usize,
    is_headed: bool,
    is_owed: bool,
    is_fixed: bool,
    since: u64,
}

/// An instance: its mode, the most items of a buffer, the latency in milliseconds; the clock; what
/// runs; the frames counted, good ones and all; the cycle in milliseconds, when the last report was
/// given, and whether one is asked for.
#[derive(Clone, Copy)]
pub struct Plain {
    pub mode: ReturnDeliveryMode,
    pub size: usize,
    pub latency: u64,
    pub now: u64,
    run: Option<Run>,
    pub good: u64,
    pub all: u64,
    cycle: Option<u64>,
    last: u64,
    is_asked: bool,
}

fn is_picked(run: &Run, place: usize, entry: u8) -> bool {
    let is_fit = match entry {
        b'g' => run.quality != b'1',
        b'e' => run.quality != b'0',
        b'u' => run.quality == b'2',
        _ => true,
    };
    run.first <= place && is_fit
}

// The picked entry that so many picked ones stand before, if there is one.
fn picked(run: &Run, entries: &[u8], before: usize) -> Option<u8> {
    let mut left = before;
    for (place, entry) in entries.iter().enumerate() {
        if !is_picked(run, place, *entry) {
            continue;
        }
        if left == 0 {
            return Some(*entry);
        }
        left -= 1;
    }
    None
}

fn items(run: &Run) -> usize {
    run.held.saturating_add(usize::from(run.is_headed))
}

// Whether the last of the held entries is a loss.
fn holds_loss(run: &Run, entries: &[u8]) -> bool {
    if run.held == 0 {
        return false;
    }
    let last = run.settled.saturating_add(run.held).saturating_sub(1);
    picked(run, entries, last) == Some(b'L')
}

impl Plain {
    pub fn new(mode: ReturnDeliveryMode, size: usize, latency: u64) -> Plain {
        Plain {
            mode,
            size,
            latency,
            now: 0,
            run: None,
            good: 0,
            all: 0,
            cycle: None,
            last: 0,
            is_asked: false,
        }
    }

    pub fn start(&mut self, quality: u8, entries: &[u8]) {
        self.run = Some(Run {
            quality,
            first: entries.len(),
            settled: 0,
            held: 0,
            is_headed: false,
            is_owed: false,
            is_fixed: false,
            since: 0,
        });
    }

    pub fn stop(&mut self) {
        self.run = None;
    }

    /// Whether a request for reports is taken: none at once, each so many seconds, or no more.
    pub fn request(&mut self, seconds: Option<u64>, is_stop: bool) -> bool {
        if is_stop {
            let is_running = self.cycle.is_some();
            self.cycle = None;
            self.is_asked = self.is_asked && !is_running;
            return is_running;
        }
        if seconds.is_some_and(|n| n < 2 || 600 < n) {
            return false;
        }
        if let Some(seconds) = seconds {
            self.cycle = Some(seconds.saturating_mul(1000));
        }
        self.is_asked = true;
        true
    }

    /// Whether a report is given in a round.
    pub fn reports(&mut self) -> bool {
        let passed = self.now.saturating_sub(self.last);
        let is_due = self.is_asked || self.cycle.is_some_and(|cycle| cycle <= passed);
        if is_due {
            self.is_asked = false;
            self.last = self.now;
        }
        is_due
    }

    fn is_full(&self, run: &Run, entries: &[u8]) -> bool {
        self.size <= items(run) || holds_loss(run, entries)
    }

    // The buffer, filled.
    fn filled(&self, before: Run, entries: &[u8]) -> Run {
        let mut run = before;
        run.is_headed = run.is_headed || (run.is_owed && run.held == 0);
        for _ in 0..entries.len() {
            let next = run.settled.saturating_add(run.held);
            if self.is_full(&run, entries) || picked(&run, entries, next).is_none() {
                break;
            }
            run.held = run.held.saturating_add(1);
        }
        if items(&before) == 0 && items(&run) > 0 {
            run.since = self.now;
        }
        let is_late = self.latency <= self.now.saturating_sub(run.since);
        run.is_fixed = items(&run) > 0 && (run.is_headed || self.is_full(&run, entries) || is_late);
        run
    }

    // Counts the held frames.
    fn count(&mut self, run: &Run, entries: &[u8]) {
        for k in 0..run.held {
            let entry = picked(run, entries, run.settled.saturating_add(k));
            self.good = self.good.saturating_add(u64::from(entry == Some(b'g')));
            self.all = self.all.saturating_add(u64::from(entry != Some(b'L')));
        }
    }

    // The buffer, taken or discarded.
    fn emptied(run: &mut Run) {
        run.settled = run.settled.saturating_add(run.held);
        run.held = 0;
        run.is_headed = false;
        run.is_fixed = false;
    }

    fn settled(&mut self, mut run: Run, entries: &[u8], answer: &str) -> Run {
        match answer {
            "whole" => {
                self.count(&run, entries);
                run.is_owed = run.is_owed && !run.is_headed;
                Plain::emptied(&mut run);
            }
            "stall" if self.mode == ReturnDeliveryMode::TimelyOnline && run.held > 0 => {
                run.is_owed = true;
                Plain::emptied(&mut run);
            }
            _ => {}
        }
        run
    }

    /// A round: how many items were offered, if any, and whether they are kept.
    pub fn round(&mut self, entries: &[u8], answer: &str) -> Option<(usize, bool)> {
        let mut run = self.run?;
        if !run.is_fixed {
            run = self.filled(run, entries);
        }
        let offered = run.is_fixed.then_some(items(&run));
        if run.is_fixed {
            run = self.settled(run, entries, answer);
        }
        self.run = Some(run);
        offered.map(|items| (items, run.is_fixed))
    }
}
