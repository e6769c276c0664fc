// A link's ends as tables keep them.
ghost use Rattle.std.specs.Prelude.{◌≡◌, ◌<◌};

use std::marker::Model;

// Two indices of clocks, in a byte each: a sheet has at most 128 clocks.
#[derive(Clone, Copy)]
pub struct Ends {
    producer: u8,
    consumer: u8,
}

impl Model for Ends {
    ghost use Rattle.sheet.specs.Sheet.{Link};

    ghost Value = { Link };

    ghost view = { λ x. record { producer = x.producer; consumer = x.consumer } };

    ghost inverse = { λ l. record { producer = l.producer; consumer = l.consumer } };
}

impl Ends {
    // Not `From`, since it asks for indices that fit.
    pub fn of(producer: usize, consumer: usize) -> Ends
        requires { (producer < 256) × (consumer < 256) }
        ensures { result ≡ record { producer = producer; consumer = consumer } }
    {
        Ends {
            producer: producer as u8,
            consumer: consumer as u8,
        }
    }

    pub fn producer(self) -> usize
        ensures { result ≡ self.producer }
    {
        self.producer as usize
    }

    pub fn consumer(self) -> usize
        ensures { result ≡ self.consumer }
    {
        self.consumer as usize
    }
}
