// Text that several commands print.
ghost use Rattle.std.specs.Iterator.{IsFinite};

use std::fmt;

// Writes each word after a space.
pub fn write_words<W: fmt::Write, I: Iterator + Drop>(
    f: &mut fmt::Formatter<W>,
    words: I,
) -> fmt::Result
where
    I::Item: fmt::Display + Drop,
    requires can { I.can_next words }
    requires ends { IsFinite (I.remaining words) }
{
    for word in words {
        write!(f, " {word}")?;
    }
    Ok(())
}

// Writes 1 for each yes and 0 for each no.
pub fn write_digits<W: fmt::Write, I: Iterator<Item = bool> + Drop>(
    f: &mut fmt::Formatter<W>,
    answers: I,
) -> fmt::Result
    requires can { I.can_next answers }
    requires ends { IsFinite (I.remaining answers) }
{
    for answer in answers {
        f.write_char(if answer { '1' } else { '0' })?;
    }
    Ok(())
}

// Words, each after a space.
#[derive(Drop)]
pub struct Words<'a, T>(pub &'a [T]);

impl<T: fmt::Display> fmt::Display for Words<'_, T> {
    fn fmt<W: fmt::Write>(&self, f: &mut fmt::Formatter<W>) -> fmt::Result {
        write_words(f, self.0.iter())
    }
}
