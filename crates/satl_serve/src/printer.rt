// Who prints answers in a form, and who counts them too.
ghost use Rattle.std.specs.Prelude.{◌≡◌, [], OnErr, OnOk};
ghost use Rattle.satl_io.specs.Causes.{HasCause};
ghost use Rattle.satl_io.specs.Known.{Wrote, WrotePart};
ghost use Rattle.satl_text.specs.Totals.{summary_of};

use crate::telling::{Form, tell_end, tell_managed, tell_reply};
use satl_base::{Manage, Reply, Response};
use satl_frame::{WriteBuffer, WriteFault};
use satl_io::Sink;
use satl_step::Teller;
use satl_text::Summary;
use std::marker::Model;

/// Prints answers in a form. A clause sees the form.
#[derive(Drop)]
pub struct Printer {
    form: Form,
    // Kept, so that its memory is not cleared for each reply.
    buffer: WriteBuffer,
}

impl Model for Printer {
    ghost use Rattle.satl_serve.specs.declared.telling.Form.{Form};

    ghost Value = { Form };

    ghost view = { λ p. p.form };
}

impl Printer {
    /// A printer of answers in a form.
    pub fn new(form: Form) -> Self
        ensures { result ≡ form }
    {
        Printer {
            form,
            buffer: WriteBuffer::new(),
        }
    }
}

impl Teller for Printer {
    ghost use Rattle.satl_serve.specs.Forms.{told};

    ghost told = { λ printer answer. told printer answer };

    ghost behind = { λ printer _. printer };

    fn tell_reply<K: Sink>(&mut self, reply: &Reply, sink: &mut K) -> Result<(), WriteFault> {
        tell_reply(self.form, reply, &mut self.buffer, sink)
    }

    fn tell_managed<K: Sink>(
        &mut self,
        manage: &Manage,
        response: Response,
        sink: &mut K,
    ) -> Result<(), WriteFault> {
        tell_managed(self.form, manage, response, sink)
    }

    fn tell_end<K: Sink>(&mut self, sink: &mut K) -> Result<(), WriteFault> {
        tell_end(self.form, sink)
    }
}

/// Prints answers in a form, and counts them.
#[derive(Drop)]
pub struct Counter {
    printer: Printer,
    /// The totals of the replies so far, with no request.
    totals: Summary,
}

impl Counter {
    /// A counter that has told no answer.
    pub fn new(form: Form) -> Self
        ensures { result ≡ record { printer = form; totals = summary_of 0 [] } }
    {
        Counter {
            printer: Printer::new(form),
            totals: Summary::default(),
        }
    }

    /// The totals of so many requests and the replies so far.
    pub fn totals(&self, requests: u64) -> Summary
        ensures { result ≡ record self.now.totals { requests = requests } }
    {
        Summary {
            requests,
            ..self.totals
        }
    }
}

impl Teller for Counter {
    ghost use Rattle.satl_serve.specs.Forms.{told};
    ghost use Rattle.satl_serve.specs.Growing.{counter_behind};

    ghost told = { λ counter answer. told counter.printer answer };

    ghost behind = { λ counter answer. counter_behind counter answer };

    fn tell_reply<K: Sink>(&mut self, reply: &Reply, sink: &mut K) -> Result<(), WriteFault> {
        self.printer.tell_reply(reply, sink)?;
        self.totals.add_reply(reply);
        Ok(())
    }

    fn tell_managed<K: Sink>(
        &mut self,
        manage: &Manage,
        response: Response,
        sink: &mut K,
    ) -> Result<(), WriteFault> {
        self.printer.tell_managed(manage, response, sink)
    }

    fn tell_end<K: Sink>(&mut self, sink: &mut K) -> Result<(), WriteFault> {
        self.printer.tell_end(sink)
    }
}
