// Reading the fields of a file.
ghost use Rattle.std.specs.Prelude.{◌≡◌, ◌≤◌, ◌==◌, length, Ok, Err, IfOk, IfErr};
ghost use Rattle.std.specs.Int.{w8, w16, w32, w64};
ghost use Rattle.pp_file.specs.Fields.{place, bytes_at, field_at, number_at, within, text_at};
ghost use Rattle.pp_file.specs.steps.Readers.{Gives};

use crate::fault::FileFault;
use std::marker::Model;

/// What of a file no field has taken yet. Contracts see the length of the file, and these bytes.
#[derive(Drop)]
pub(crate) struct Cursor<'b> {
    limit: u32,
    bytes: &'b [u8],
}

impl<'b> Model for Cursor<'b> {
    ghost use Rattle.std.specs.Prelude.{◌≤◌, length};
    ghost use Rattle.pp_file.specs.Fields.{Left};

    ghost Value = { Left };

    ghost view = { λ c. record { limit = c.limit; bytes = c.bytes.now } };

    ghost invariant = { λ c. length c.bytes.now ≤ c.limit };
}

impl<'b> Cursor<'b> {
    /// The last bytes of a file of this length.
    pub(crate) fn new(limit: u32, bytes: &'b [u8]) -> Cursor<'b>
        requires { length bytes.now ≤ limit }
        ensures { result ≡ record { limit = limit; bytes = bytes.now } }
    {
        Cursor { limit, bytes }
    }

    /// Where the next field begins.
    pub(crate) fn place(&self) -> u32
        ensures { result ≡ place self.now }
    {
        self.limit - self.bytes.len() as u32
    }

    /// Whether no byte is left.
    pub(crate) fn is_at_end(&self) -> bool
        ensures { result ≡ (length self.now.bytes == 0) }
    {
        self.bytes.is_empty()
    }

    /// So many bytes.
    pub(crate) fn bytes(&mut self, count: usize) -> Result<&'b [u8], FileFault>
        ensures ok { IfOk result (λ front. bytes_at count self.old ≡ Ok (front.now, self.new)) }
        ensures err { IfErr result (λ e. Gives (Err e) self.new (bytes_at count self.old)) }
        ensures size { IfOk result (λ front. length front.now ≡ count) }
    {
        match self.bytes.split_at_checked(count) {
            Some((front, rest)) => {
                self.bytes = rest;
                Ok(front)
            }
            None => Err(FileFault::Form { offset: self.limit }),
        }
    }

    /// A number of one byte.
    pub(crate) fn read_u8(&mut self) -> Result<u8, FileFault>
        ensures { Gives result self.new (field_at w8 self.old) }
    {
        let field = self.bytes(1)?;
        Ok(field[0])
    }

    /// A number of two bytes.
    pub(crate) fn read_u16(&mut self) -> Result<u16, FileFault>
        ensures { Gives result self.new (field_at w16 self.old) }
    {
        let field = self.bytes(2)?;
        Ok(u16::from_be_bytes([field[0], field[1]]))
    }

    /// A number of four bytes.
    pub(crate) fn read_u32(&mut self) -> Result<u32, FileFault>
        ensures { Gives result self.new (field_at w32 self.old) }
    {
        let field = self.bytes(4)?;
        Ok(u32::from_be_bytes([field[0], field[1], field[2], field[3]]))
    }

    /// A number of eight bytes.
    pub(crate) fn read_u64(&mut self) -> Result<u64, FileFault>
        ensures { Gives result self.new (field_at w64 self.old) }
    {
        let field = self.bytes(8)?;
        Ok(u64::from_be_bytes([
            field[0], field[1], field[2], field[3], field[4], field[5], field[6], field[7],
        ]))
    }

    /// A number of one byte that has to be within limits, both included.
    pub(crate) fn u8_within(&mut self, least: u32, most: u32) -> Result<u8, FileFault>
        ensures read { Gives result self.new (number_at w8 (within least most) self.old) }
        ensures least { IfOk result (λ n. least ≤ n) }
        ensures most { IfOk result (λ n. n ≤ most) }
    {
        let offset = self.place();
        let n = self.read_u8()?;
        if (n as u32) < least || most < n as u32 {
            return Err(FileFault::Form { offset });
        }
        Ok(n)
    }

    /// A number of two bytes that has to be within limits, both included.
    pub(crate) fn u16_within(&mut self, least: u32, most: u32) -> Result<u16, FileFault>
        ensures read { Gives result self.new (number_at w16 (within least most) self.old) }
    {
        let offset = self.place();
        let n = self.read_u16()?;
        if (n as u32) < least || most < n as u32 {
            return Err(FileFault::Form { offset });
        }
        Ok(n)
    }

    /// A text: a byte of length, and that many bytes.
    #[tactic(auto, unfolding(crate::specs::Fields::text_at))]
    pub(crate) fn text(&mut self) -> Result<&'b [u8], FileFault>
        ensures ok { IfOk result (λ front. text_at self.old ≡ Ok (front.now, self.new)) }
        ensures err { IfErr result (λ e. Gives (Err e) self.new (text_at self.old)) }
        ensures short { IfOk result (λ front. length front.now ≤ 255) }
    {
        let count = self.read_u8()?;
        self.bytes(count as usize)
    }
}
