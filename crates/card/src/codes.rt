// The code of an accepted card: its counts, and its columns where they stand in the card. A call that has
// one has a card that passed the check; how a card is laid out, it need not know.
//
// A clause sees a code as that of flat/specs/Cards.antt.
ghost use Rattle.std.specs.Prelude.{◌≡◌, ◌<◌, ◌≤◌};
ghost use Rattle.flat.specs.Lists.{padded};
ghost use Rattle.flat.specs.Cards.{disks, column, code_in};
ghost use Rattle.card.specs.Columns.{Columns};
ghost use Rattle.card.specs.Codes.{Legal};

use crate::{Counts, column_bytes};
use std::marker::Model;

// The code of k data disks and m parity disks.
#[derive(Clone, Drop)]
pub struct Code<'a> {
    columns: &'a [u8],
    k: usize,
    m: usize,
}

impl<'a> Model for Code<'a> {
    ghost use Rattle.flat.specs.Cards.{Code as FlatCode, code_in};
    ghost use Rattle.card.specs.Columns.{Columns};

    ghost Value = { FlatCode };

    ghost view = { λ c. code_in c.k c.m c.columns.now };

    ghost invariant = { λ c. Columns c.k c.m c.columns.now };
}

impl<'a> Code<'a> {
    // The code of k and m whose columns stand in these bytes.
    pub fn new(columns: &'a [u8], k: usize, m: usize) -> Code<'a>
        requires { Columns k m columns.now }
        ensures { result ≡ code_in k m columns.now }
    {
        Code { columns, k, m }
    }

    // How many data disks.
    pub fn k(&self) -> usize
        ensures value { result ≡ self.now.k }
        ensures legal { Legal self.now }
    {
        self.k
    }

    // How many parity disks.
    pub fn m(&self) -> usize
        ensures value { result ≡ self.now.m }
        ensures legal { Legal self.now }
    {
        self.m
    }

    // How many disks.
    pub fn n(&self) -> usize
        ensures value { result ≡ disks self.now }
        ensures legal { Legal self.now }
        ensures bound { result ≤ 32 }
    {
        self.k + self.m
    }

    // Both counts, without the columns: they hold no loan of the card.
    pub fn counts(&self) -> Counts
        ensures k { result.k ≡ self.now.k }
        ensures m { result.m ≡ self.now.m }
    {
        let Code { k, m, .. } = *self;
        Counts { k, m }
    }

    // The column of parity disk k + j.
    pub fn column(&self, j: usize) -> u16
        requires { j < self.now.m }
        ensures value { result ≡ column self.now j }
        ensures legal { Legal self.now }
    {
        column_bytes::column(self.columns, j)
    }

    // The m columns, then zeros.
    pub fn columns(&self) -> [u16; 16]
        ensures value { result ≡ padded 16 self.now.columns }
        ensures legal { Legal self.now }
    {
        let mut out = [0u16; 16];
        for j in 0..self.m {
            out[j] = self.column(j);
        }
        out
    }
}
