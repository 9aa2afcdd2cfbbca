// What is asked for.

ghost use Rattle.std.specs.Prelude.{◌≡◌, ◌*◌, ◌/◌, ◌<◌, ◌^◌};
ghost use Rattle.align.specs.Align.{Power};
ghost use Rattle.definition.specs.Calls.{place as place_of, keeps};
ghost use Rattle.machine.specs.Machine.{words, grain};
ghost use Rattle.hand_out.specs.Demand.{Demand as Demanded, power_prop};

// A payload that is asked for, in half grains: how long it is, and the number of which its place is to be a multiple.
#[derive(Clone, Copy)]
pub struct Demand {
    pub length: usize,
    pub multiple: usize,
    pub ghost power: { Power multiple } by { power_prop multiple },
    pub ghost most: { multiple < words / grain },
    pub ghost fits: { length < words / 2 },
}

impl Demand {
    // So many half grains, at a multiple of others.
    pub fn new(length: usize, multiple: usize) -> Demand
        requires { Demanded length multiple }
        ensures { (result.length ≡ length) × (result.multiple ≡ multiple) }
    {
        Demand { length, multiple }
    }

    // Where the payload stands in a block that starts at grain y, in half grains.
    pub fn place(self, y: usize) -> usize
        requires { 2 * y < 2 ^ 64 }
        ensures { result ≡ place_of self.multiple y }
    {
        request::place_of(self.multiple, y)
    }

    // How many grains such a block keeps for it.
    pub fn keep(self, y: usize) -> usize
        requires { 2 * y < 2 ^ 64 }
        ensures { result ≡ keeps (place_of self.multiple y) self.length }
    {
        request::keeps_of(self.place(y), self.length)
    }
}
