ghost use Rattle.std.specs.Prelude.{◌≡◌, refl};
ghost use Rattle.pt_tables.specs.Rows.{number_rows, handle_rows};
ghost use Rattle.pt_tables.specs.Tables.{closing_of, closing_of_handle};

use crate::form::RowForm;
use pt_host::{Fd, ObjIds};
use pt_rows::Pinned;

/// A number's row, which takes its slot of its class. A live row has a count; one that is not live stays until its
/// last pin is given back.
#[derive(Drop)]
pub struct Row {
    pub serial: u64,
    pub number: u64,
    pub form: RowForm,
    pub ids: ObjIds,
    pub mode: u32,
    pub class: u32,
    pub count: u64,
    pub pins: u64,
    pub live: bool,
}

/// A handle's row, with the number that it was opened for. It is not live once it was released, and stays until its
/// last pin is given back.
#[derive(Clone, Copy)]
pub struct HandleRow {
    pub serial: u64,
    pub handle: u64,
    pub number: u64,
    pub fd: Fd,
    pub class: u32,
    pub pins: u64,
    pub live: bool,
}

/// A descriptor that is to be closed, and whether a slot of its class goes back with it.
#[derive(Clone, Copy)]
pub struct Closing {
    pub fd: Fd,
    pub slot: bool,
    pub class: u32,
}

impl Row {
    pub fn with_count(&self, count: u64) -> Row
        ensures { result ≡ record self.now { count = count } }
    {
        let mut row = self.copy();
        row.count = count;
        row
    }

    /// What is to be closed when the row ends.
    pub fn closing(&self) -> Closing
        ensures { result ≡ closing_of self.now }
    {
        match self.form {
            RowForm::File(fd) => Closing {
                fd,
                slot: true,
                class: self.class,
            },
        }
    }
}

impl HandleRow {
    /// What is to be closed when the row ends.
    pub fn closing(&self) -> Closing
        ensures { result ≡ closing_of_handle self.now }
    {
        Closing {
            fd: self.fd,
            slot: true,
            class: self.class,
        }
    }
}

impl Pinned for Row {
    ghost keyed = { number_rows.keyed };

    fn copy(&self) -> Row {
        Row {
            serial: self.serial,
            number: self.number,
            form: self.form.copy(),
            ids: self.ids,
            mode: self.mode,
            class: self.class,
            count: self.count,
            pins: self.pins,
            live: self.live,
        }
    }

    fn serial(&self) -> u64 {
        self.serial
    }

    fn key(&self) -> u64 {
        self.number
    }

    fn class(&self) -> u32 {
        self.class
    }

    fn pins(&self) -> u64 {
        self.pins
    }

    fn is_live(&self) -> bool {
        self.live
    }

    fn with_pins(&self, pins: u64) -> Row {
        let mut row = self.copy();
        row.pins = pins;
        row
    }

    fn dead(&self) -> Row {
        let mut row = self.copy();
        row.count = 0;
        row.live = false;
        row
    }

    ghost repins = { λ row pins. record { serial = refl; key = refl; live = refl } };

    ghost dies = { λ row. record { serial = refl; live = refl } };
}

impl Pinned for HandleRow {
    ghost keyed = { handle_rows.keyed };

    fn copy(&self) -> HandleRow {
        *self
    }

    fn serial(&self) -> u64 {
        self.serial
    }

    fn key(&self) -> u64 {
        self.handle
    }

    fn class(&self) -> u32 {
        self.class
    }

    fn pins(&self) -> u64 {
        self.pins
    }

    fn is_live(&self) -> bool {
        self.live
    }

    fn with_pins(&self, pins: u64) -> HandleRow {
        HandleRow { pins, ..*self }
    }

    fn dead(&self) -> HandleRow {
        HandleRow {
            live: false,
            ..*self
        }
    }

    ghost repins = { λ row pins. record { serial = refl; key = refl; live = refl } };

    ghost dies = { λ row. record { serial = refl; live = refl } };
}
