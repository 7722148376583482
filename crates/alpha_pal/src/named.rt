// The registers that the PALcode and the system calls name.
ghost use Rattle.std.specs.Prelude.{◌≡◌, ◌<◌};

use alpha_words::Reg;

pub(crate) const V0: u8 = 0;

pub(crate) const A0: u8 = 16;

pub(crate) const A1: u8 = 17;

pub(crate) const A2: u8 = 18;

pub(crate) const A3: u8 = 19;

pub(crate) const GP: u8 = 29;

pub(crate) const SP: u8 = 30;

// The register with this number.
pub(crate) fn reg_of_number(number: u8) -> Reg
    requires { number < 32 }
    ensures { result ≡ number }
{
    Reg::new(number).unwrap()
}
