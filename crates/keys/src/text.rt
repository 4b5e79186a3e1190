// The text of a key, in memory of its own. Each function puts its text behind what stands there. It is no `Display`, since a formatter may fail, and
// a key never does.
ghost use Rattle.std.specs.Prelude.{◌≡◌, [], ◌++◌, ◌+◌, ◌*◌, ◌≤◌, length};
ghost use Rattle.rules.specs.Project.{item_limit};
ghost use Rattle.rules.specs.Keys.{separated, ok_text, no_text, key_of};
ghost use Rattle.keys.specs.Texts.{key_text_limit, answer_of, behind_by};

use super::TEXT_LIMIT;
use arrayvec::ArrayVec;
use itoa::{Buffer, Integer};
use sort::Numbers;

#[derive(Drop)]
pub struct Text {
    bytes: ArrayVec<u8, TEXT_LIMIT>,
}

impl Text {
    // The key of an answer.
    pub fn of(numbers: Numbers, rows: &[u8]) -> Self
        requires { length rows.now ≤ item_limit }
        ensures { result.bytes.items ≡ key_of (answer_of numbers rows.now) }
    {
        let mut text = Text {
            bytes: ArrayVec::new(),
        };
        if numbers.answer == 0 {
            text.put_ok(numbers, rows);
        } else {
            text.put_no(numbers.answer);
        }
        text
    }

    pub fn len(&self) -> usize
        ensures value { result ≡ length self.now.bytes.items }
        ensures most { result ≤ key_text_limit }
    {
        self.bytes.len()
    }

    pub fn as_bytes(&self) -> &[u8]
        ensures { result.now ≡ self.now.bytes.items }
    {
        self.bytes.as_slice()
    }

    // The two lines of an order that is given.
    fn put_ok(&mut self, numbers: Numbers, rows: &[u8])
        requires empty { self.old.bytes.items ≡ [] }
        requires few { length rows.now ≤ item_limit }
        ensures { self.new.bytes.items ≡ ok_text (answer_of numbers rows.now) }
    {
        let Numbers {
            kept,
            groups,
            module_visits,
            item_visits,
            ..
        } = numbers;
        self.put(b"ok");
        self.put_behind(&[kept, groups, module_visits, item_visits]);
        self.put(b"\n");
        self.put_rows(rows);
        self.put(b"\n");
    }

    // The line of a refusal.
    fn put_no(&mut self, number: u32)
        requires { self.old.bytes.items ≡ [] }
        ensures { self.new.bytes.items ≡ no_text number }
    {
        self.put(b"no");
        self.put_behind(&[number]);
        self.put(b"\n");
    }

    // Rows, separated by a blank.
    fn put_rows(&mut self, rows: &[u8])
        requires { length self.old.bytes.items + 4 * length rows.now ≤ key_text_limit }
        ensures text { self.new.bytes.items ≡ self.old.bytes.items ++ separated rows.now }
        ensures most { length self.new.bytes.items ≤ length self.old.bytes.items + 4 * length rows.now }
    {
        if let Some((first, others)) = rows.split_first() {
            self.put_number(*first);
            self.put_behind(others);
        }
    }

    // Numbers, each behind a blank.
    fn put_behind<N: Integer>(&mut self, numbers: &[N])
        requires { length self.old.bytes.items + (N.MAX_STR_LEN + 1) * length numbers.now ≤ key_text_limit }
        ensures text { self.new.bytes.items ≡ self.old.bytes.items ++ behind_by N.text numbers.now }
        ensures most { length self.new.bytes.items ≤ length self.old.bytes.items + (N.MAX_STR_LEN + 1) * length numbers.now }
    {
        for n in numbers {
            self.put(b" ");
            self.put_number(*n);
        }
    }

    fn put_number<N: Integer>(&mut self, n: N)
        requires { length self.old.bytes.items + N.MAX_STR_LEN ≤ key_text_limit }
        ensures text { self.new.bytes.items ≡ self.old.bytes.items ++ N.text n }
        ensures most { length self.new.bytes.items ≤ length self.old.bytes.items + N.MAX_STR_LEN }
    {
        self.put(Buffer::new().format(n).as_bytes());
    }

    fn put(&mut self, bytes: &[u8])
        requires { length self.old.bytes.items + length bytes.now ≤ key_text_limit }
        ensures text { self.new.bytes.items ≡ self.old.bytes.items ++ bytes.now }
        ensures size { length self.new.bytes.items ≡ length self.old.bytes.items + length bytes.now }
    {
        self.bytes.try_extend_from_slice(bytes).unwrap();
    }
}
