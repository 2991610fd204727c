// A line of the input: the word that names its call, the words that the call takes, and a text that names the case. It is answered by the
// call's word, what is printed of what the call answers, and the text.
use crate::answers::Answer;
use crate::records::panel_of;
use panel::Panel;
use std::io;
use test_lines::input::split_word;
use test_lines::output;

#[derive(Clone, Copy)]
pub struct Line<'a> {
    pub word: &'a [u8],
    pub rest: &'a [u8],
}

impl<'a> Line<'a> {
    pub fn of(text: &'a [u8]) -> Line<'a> {
        let (word, rest) = split_word(text);
        Line { word, rest }
    }

    // The next word, and the line without it.
    pub fn next(self) -> (&'a [u8], Line<'a>) {
        let (next, rest) = split_word(self.rest);
        let word = self.word;
        (next, Line { word, rest })
    }

    fn print<T: Answer + Drop>(self, rt: &impl Print, answer: T, name: &[u8]) -> io::Result<()> {
        output::text(rt, self.word)?;
        output::text(rt, b" ")?;
        answer.print(rt)?;
        output::end_line(rt, name)?;
        answer.print_behind(rt)
    }

    // Of a call that takes one word.
    pub fn by_word<T: Answer + Drop, F: FnOnce(&[u8]) -> T>(
        self,
        rt: &impl Print,
        call: F,
    ) -> io::Result<()>
        requires { F.IsAlwaysCallable call }
    {
        let (first, name) = split_word(self.rest);
        self.print(rt, call(first), name)
    }

    // Of a call that takes two words.
    pub fn by_words<T: Answer + Drop, F: FnOnce(&[u8], &[u8]) -> T>(
        self,
        rt: &impl Print,
        call: F,
    ) -> io::Result<()>
        requires { F.IsAlwaysCallable call }
    {
        let (first, rest) = split_word(self.rest);
        let (second, name) = split_word(rest);
        self.print(rt, call(first, second), name)
    }

    // Of a call that takes the panel of a record.
    pub fn by_panel<T: Answer + Drop, F: FnOnce(Panel) -> T>(
        self,
        rt: &impl Print,
        call: F,
    ) -> io::Result<()>
        requires { F.IsAlwaysCallable call }
    {
        self.by_word(rt, |record| call(panel_of(record)))
    }

    // Of a call that takes the panel of a record and a number, whose word stands before it.
    pub fn by_panel_at<T: Answer + Drop, F: FnOnce(Panel, &[u8]) -> T>(
        self,
        rt: &impl Print,
        call: F,
    ) -> io::Result<()>
        requires { F.IsAlwaysCallable call }
    {
        self.by_words(rt, |at, record| call(panel_of(record), at))
    }
}
