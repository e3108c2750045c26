// What is shown of bytes and of a count of them.
use std::fmt;
use std::fmt::Display;

/// Bytes in hexadecimal: two lower-case digits each, with nothing between them.
#[derive(Clone, Copy)]
pub struct HexBytes<'a>(pub &'a [u8]);

impl<'a> Display for HexBytes<'a> {
    ghost use Rattle.std.specs.Prelude.{Some};
    ghost use Rattle.text.specs.Shown.{hex_digits};

    ghost output = { λ bytes. Some (hex_digits bytes.0.now) };

    fn fmt<W: fmt::Write>(&self, f: &mut fmt::Formatter<W>) -> fmt::Result {
        for &b in self.0 {
            write!(f, "{b:02x}")?;
        }
        Ok(())
    }
}

/// A count of bytes, with its unit.
#[derive(Clone, Copy)]
pub struct Count(pub usize);

impl Display for Count {
    ghost use Rattle.std.specs.Prelude.{Some};
    ghost use Rattle.text.specs.Shown.{count_text};

    ghost output = { λ count. Some (count_text count.0) };

    fn fmt<W: fmt::Write>(&self, f: &mut fmt::Formatter<W>) -> fmt::Result {
        let n = self.0;
        if n == 1 {
            write!(f, "1 byte")
        } else {
            write!(f, "{n} bytes")
        }
    }
}
