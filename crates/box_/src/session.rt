// One run of the program: the router, and what goes in and out.
use crate::log::Log;
use cli::{Ending, write_output};
use endpoint::{FrameError, serve, start};
use router::Router;
use std::alloc::Global;
use std::mem;
use types::{NodeId, ReadFault};
use wire::Frames;

// What the program holds between two reads: the router, once it has its list of links, the bytes of the next frame that
// are there already, and what is to be written.
#[derive(Drop)]
pub struct Session {
    me: NodeId,
    router: Option<Box<Router>>,
    cut: Vec<u8>,
    out: Vec<u8>,
    log: Log,
}

impl Session {
    pub fn new(heap: Global, me: NodeId) -> Session {
        Session {
            me,
            router: None,
            cut: Vec::new(heap),
            out: Vec::new(heap),
            log: Log::new(heap),
        }
    }

    // Takes all frames that are whole now; what is left of the bytes is kept.
    pub fn take(&mut self, heap: Global, bytes: &[u8]) -> Result<(), Ending> {
        self.cut.extend_from_slice(bytes)?;
        let input = mem::replace(&mut self.cut, Vec::new(heap));
        let mut frames = Frames {
            rest: input.as_slice(),
        };
        self.begin(heap, &mut frames)?;
        self.answer_all(heap, &mut frames)?;
        Ok(self.cut.extend_from_slice(frames.rest)?)
    }

    // A frame that is cut at the end of the input is refused like any other.
    pub fn end(&mut self) -> Result<(), Ending> {
        if self.cut.is_empty() {
            return Ok(());
        }
        self.log.count_frame();
        self.log.note(FrameError::Read(ReadFault::Truncated))
    }

    // Writes what is to be written, once: what has gone out is cleared whatever comes of it. Where that can't be written the
    // program ends, by one line that says so.
    pub fn hand_out(&mut self, rt: &HostRuntime) -> Result<(), Ending> {
        let written = write_output(rt, self.out.as_slice());
        self.out.clear();
        if written.is_ok() {
            self.log.write(&rt.stderr());
        } else {
            self.log.clear();
        }
        written
    }

    // Takes frames until one of them makes the router. This and `answer_all` are calls of their own since each has room on
    // the stack for routers, of 46 KB each: so the two don't add up, and no frame clears that room.
    #[inline(never)]
    fn begin(&mut self, heap: Global, frames: &mut Frames) -> Result<(), Ending> {
        if self.router.is_some() {
            return Ok(());
        }
        for frame in frames {
            self.log.count_frame();
            match start(heap, self.me, frame) {
                Ok(router) => {
                    self.router = Some(Box::new(heap, router)?);
                    break;
                }
                Err(fault) => self.log.note(fault)?,
            }
        }
        Ok(())
    }

    // The router takes the frames.
    #[inline(never)]
    fn answer_all(&mut self, heap: Global, frames: &mut Frames) -> Result<(), Ending> {
        let Some(router) = &mut self.router else {
            return Ok(());
        };
        for frame in frames {
            self.log.count_frame();
            if let Err(fault) = serve(heap, router, frame, &mut self.out) {
                self.log.note(fault)?;
            }
        }
        Ok(())
    }
}
