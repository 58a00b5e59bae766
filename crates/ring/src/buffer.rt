// Frames in and out of the places of a line.
ghost use Rattle.std.specs.Prelude.{◌≡◌, ◌<◌, length, None, Ok, IfSome, slice_index_or};
ghost use Rattle.frame.specs.Frames.{frame_value};
ghost use Rattle.frame.specs.Numbers.{refused_by};
ghost use Rattle.plant.specs.Answers.{send_refusal, Sends};
ghost use Rattle.plant.specs.Questions.{of_line, no_frame};
ghost use Rattle.plant.specs.Futures.{after, sent, polled, oldest};
ghost use Rattle.ring.specs.Rows.{row_at};
ghost use Rattle.ring.specs.Rings.{shape_of, value_of, lists_of, future_of, Taken, taken_turn};

use crate::ring::Ring;
use crate::row::{Row, wrapped};
use frame::{Frame, Refusal};
use plant::{Plant, label_kept};

impl Ring {
    // The row of a line that exists.
    pub(crate) fn row(&self, line: usize) -> Option<Row>
        ensures row { result ≡ of_line (shape_of self.now) line (row_at self.now.rows line) }
        ensures len { IfSome result (λ row. row.len ≡ length (lists_of self.now line)) }
    {
        self.rows[..self.lines].get(line).copied()
    }

    // The frame at a place of a line, the oldest at 0.
    pub(crate) fn frame_at(&self, line: usize, place: usize) -> Frame
        requires line { line < self.now.lines }
        requires place { place < length (lists_of self.now line) }
        ensures { frame_value result ≡ slice_index_or (lists_of self.now line) place no_frame }
    {
        let row = self.rows[line];
        self.places[row.base + wrapped(row.cap, row.head + place)]
    }

    // Whether a frame may be sent on a line, or the first rule that it breaks.
    pub(crate) fn admits(&self, line: usize, frame: &Frame) -> Result<(), Refusal>
        ensures { refused_by result ≡ send_refusal (value_of self.now) line (frame_value frame.now) }
    {
        let row = self.row(line).ok_or(Refusal::NoLine)?;
        if row.len >= row.cap {
            return Err(Refusal::LineFull);
        }
        if label_kept(frame, self.kept()) {
            return Err(Refusal::LabelKept);
        }
        if frame.stack.len() > self.depth() {
            return Err(Refusal::TooDeep);
        }
        Ok(())
    }

    // Writes a frame behind the newest of a line that has room for it.
    pub(crate) fn put(&mut self, line: usize, frame: Frame)
        requires { send_refusal (value_of self.old) line (frame_value frame) ≡ None }
        ensures sends { Sends (value_of self.old) line (frame_value frame) (Ok result) (value_of self.new) }
        ensures future { future_of self.new ≡ after (future_of self.old) (sent line (frame_value frame)) }
    {
        let row = self.rows[line];
        self.places[row.base + wrapped(row.cap, row.head + row.len)] = frame;
        self.rows[line] = row.extend();
    }

    // The oldest frame of a line.
    fn oldest(&self, line: usize) -> Frame
        requires line { line < self.now.lines }
        requires some { 0 < length (lists_of self.now line) }
        ensures { frame_value result ≡ slice_index_or (lists_of self.now line) 0 no_frame }
    {
        self.frame_at(line, 0)
    }

    // Takes the oldest frame of the line of a port out, if one waits there.
    pub(crate) fn take(&mut self, port: usize) -> Option<Frame>
        ensures taken { Taken (value_of self.old) port result (value_of self.new) }
        ensures turn { oldest port (lists_of self.old port) ≡ taken_turn port result }
        ensures future { future_of self.new ≡ after (future_of self.old) (polled port) }
    {
        let row = self.row(port)?;
        if row.len == 0 {
            return None;
        }
        let frame = self.oldest(port);
        self.rows[port] = row.advance();
        Some(frame)
    }
}
