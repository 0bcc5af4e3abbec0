// A case, read from its beginning on.
ghost use Rattle.std.specs.Prelude.{◌≡◌, ◌+◌, ◌-◌, min, ◌≤◌, ◌<◌, length, take, drop};
ghost use Rattle.basis.specs.Number.{number_at};

// So many items from a place on, or what there is of them.
pub fn part<T>(items: &[T], from: usize, size: usize) -> &[T]
    ensures { result.now ≡ take size (drop from items.now) }
{
    let rest = items.get(from..).unwrap_or(&[]);
    rest.get(..size).unwrap_or(rest)
}

// What a case has, and how far it was read. Numbers have their low byte first. Where a case is cut, a number is 0 and a part is what there is of it.
#[derive(Clone, Copy)]
pub struct Case<'a> {
    pub bytes: &'a [u8],
    pub at: usize,
}

impl<'a> Case<'a> {
    // The case that begins with these bytes.
    pub fn new(bytes: &'a [u8]) -> Case<'a>
        ensures { (result.bytes.now ≡ bytes.now) × (result.at ≡ 0) }
    {
        Case { bytes, at: 0 }
    }

    // All that was not read.
    pub fn rest(&self) -> &'a [u8]
        ensures { result.now ≡ drop self.now.at self.now.bytes.now }
    {
        self.bytes.get(self.at..).unwrap_or(&[])
    }

    // So many bytes.
    pub fn part(&mut self, size: usize) -> &'a [u8]
        ensures given { result.now ≡ take size (drop self.old.at self.old.bytes.now) }
        ensures long { length result.now ≤ length self.old.bytes.now - self.old.at }
        ensures same { self.new.bytes ≡ self.old.bytes }
        ensures behind { self.new.at ≡ min (self.old.at + size) usize.MAX }
    {
        let part = part(self.bytes, self.at, size);
        self.at = self.at.saturating_add(size);
        part
    }

    // The number in a byte.
    pub fn byte(&mut self) -> u8
        ensures whole { self.old.at < length self.old.bytes.now → result ≡ number_at 1 self.old.bytes.now self.old.at }
        ensures cut { length self.old.bytes.now ≤ self.old.at → result ≡ 0 }
        ensures same { self.new.bytes ≡ self.old.bytes }
        ensures behind { self.new.at ≡ min (self.old.at + 1) usize.MAX }
    {
        self.part(1).first().copied().unwrap_or(0)
    }

    // The number in two bytes.
    pub fn number(&mut self) -> u16
        ensures whole { self.old.at + 2 ≤ length self.old.bytes.now → result ≡ number_at 2 self.old.bytes.now self.old.at }
        ensures cut { length self.old.bytes.now < self.old.at + 2 → result ≡ 0 }
        ensures same { self.new.bytes ≡ self.old.bytes }
        ensures behind { self.new.at ≡ min (self.old.at + 2) usize.MAX }
    {
        match self.part(2) {
            [low, high] => u16::from_le_bytes([*low, *high]),
            _ => 0,
        }
    }

    // The number in four bytes.
    pub fn long(&mut self) -> u32
        ensures whole { self.old.at + 4 ≤ length self.old.bytes.now → result ≡ number_at 4 self.old.bytes.now self.old.at }
        ensures cut { length self.old.bytes.now < self.old.at + 4 → result ≡ 0 }
        ensures same { self.new.bytes ≡ self.old.bytes }
        ensures behind { self.new.at ≡ min (self.old.at + 4) usize.MAX }
    {
        match self.part(4) {
            [a, b, c, d] => u32::from_le_bytes([*a, *b, *c, *d]),
            _ => 0,
        }
    }
}
