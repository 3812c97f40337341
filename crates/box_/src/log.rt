// What the program says of frames on standard error.
use cli::Ending;
use endpoint::FrameError;
use std::alloc::Global;
use types::Refusal;

// How many frames have come, and the lines that are to be written about them.
#[derive(Drop)]
pub struct Log {
    frames: usize,
    lines: String,
}

impl Log {
    pub fn new(heap: Global) -> Log {
        Log {
            frames: 0,
            lines: String::new(heap),
        }
    }

    // Another frame has come.
    pub fn count_frame(&mut self) {
        self.frames = self.frames.saturating_add(1);
    }

    // The last frame is refused. A Switched message that nobody waits for is passed over in silence. Want of memory ends the
    // program.
    pub fn note(&mut self, error: FrameError) -> Result<(), Ending> {
        let k = self.frames;
        let number = match error {
            FrameError::Refused(Refusal::NotPending) => return Ok(()),
            FrameError::Memory(error) => return Err(Ending::Memory(error)),
            FrameError::Read(fault) => fault.number(),
            FrameError::Refused(refusal) => refusal.number(),
            FrameError::Dropped(reason) => reason.number(),
        };
        Ok(write!(self.lines, "frame {k}: fault {number}: {error}\n")?)
    }

    // Writes the lines in one piece: between pieces, another router that logs into the same file could cut a line in two.
    // Where they can't be written they are lost: the router goes on, since its neighbours wait for what it hands on, and
    // nobody for its log.
    pub fn write(&mut self, errors: &impl Print) {
        match errors.write_all(self.lines.as_bytes()) {
            Ok(()) | Err(_) => {}
        }
        self.lines.clear();
    }

    // The lines are not to be written.
    pub fn clear(&mut self) {
        self.lines.clear();
    }
}
