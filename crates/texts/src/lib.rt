// The text of an answer.
#![tactic(auto)]

ghost use Rattle.std.specs.Prelude.{◌≡◌, ◌≤◌, length, drop};
ghost use Rattle.texts.specs.Texts.{decimal_of, sign, levels_text};

// The digits of a number: the bytes from a place to the end. No Model, whose view would have no way back, so that it is Copy.
#[derive(Clone, Copy)]
pub struct Digits {
    pub bytes: [u8; 10],
    pub from: usize,
}

impl Digits {
    // None where the place lies past the end.
    pub fn as_bytes(&self) -> &[u8]
        ensures { result.now ≡ drop self.now.from self.now.bytes }
    {
        self.bytes.get(self.from..).unwrap_or_default()
    }
}

// The decimal digits of a number, without zeros in front.
#[tactic(auto, using(crate::proofs::Decimals::last_digit, crate::proofs::Decimals::no_digit))]
pub fn decimal(n: u32) -> Digits
    ensures bytes_value { drop result.from result.bytes ≡ decimal_of n }
    ensures value { (10 ≡ length result.bytes) × (result.from ≤ 10) }
{
    let mut bytes = [0; 10];
    let mut rest = n;
    for from in (0..10).rev() {
        bytes[from] = b'0' + (rest % 10) as u8;
        if rest < 10 {
            return Digits { bytes, from };
        }
        rest /= 10;
    }
    // Not reached: 32 bits have at most ten digits.
    Digits { bytes, from: 0 }
}

fn mark(level: bool) -> u8
    ensures { result ≡ sign level }
{
    b'0' + u8::from(level)
}

// P0 to P7, CP2, CTO, O1, O2, O3, IRQ: a 0 or a 1 each. Levels by themselves, as this crate knows no board.
pub fn levels(port: u8, cp2: bool, cto: bool, o1: bool, o2: bool, o3: bool, irq: bool) -> [u8; 14]
    ensures { result ≡ levels_text port cp2 cto o1 o2 o3 irq }
{
    [
        b'0' + port % 2,
        b'0' + port / 2 % 2,
        b'0' + port / 4 % 2,
        b'0' + port / 8 % 2,
        b'0' + port / 16 % 2,
        b'0' + port / 32 % 2,
        b'0' + port / 64 % 2,
        b'0' + port / 128 % 2,
        mark(cp2),
        mark(cto),
        mark(o1),
        mark(o2),
        mark(o3),
        mark(irq),
    ]
}
