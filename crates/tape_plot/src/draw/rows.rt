// The rows of the picture, from above.
use super::bar::{BAR, put_bar_row};
use super::events::{Shape, put_doom, put_row};
use super::frame::{AXIS, Frame, LANE};
use super::line::{Scene, put_field, put_limits, put_path};
use super::name::{Name, put_names};
use super::pick::Pick;
use super::sheet::Sheet;
use crate::connections::Connections;
use crate::exchange::Exchange;
use crate::exchanges::Exchanges;
use crate::flow::{Flow, Place};
use crate::highest::Buffer;
use crate::lane::Lane;
use crate::levels::Levels;
use crate::limits::{Limits, known};
use crate::mark::{Mark, Marks};
use crate::plot::Plot;
use flow_gate::FlowId;
use io_ports::NoMemory;
use std::alloc::Global;

/// Rows that are drawn so far.
#[derive(Drop)]
pub struct Rows {
    pub sheet: Sheet,
    /// Where the next row begins.
    pub y: u64,
    /// How many lanes are drawn.
    pub lanes: u64,
    /// How many bars are drawn.
    bars: u64,
}

impl Rows {
    ghost use Rattle.std.specs.List.{Contains};
    ghost use Rattle.std.specs.Prelude.{◌≡◌, All, OnOk, length, true};
    ghost use Rattle.tape_plot.specs.Lanes.{drawn_of};
    ghost use Rattle.tape_plot.specs.Limits.{known, limit_at};
    ghost use Rattle.tape_plot.specs.Path.{path_text};
    ghost use Rattle.tape_plot.specs.Picks.{IsPicked};
    ghost use Rattle.tape_plot.specs.Sheets.{ExchangeDrawn, FlowDrawn, Grows, Has, LevelsDrawn, PlacesDrawn, WriteDrawn};
    ghost use Rattle.tape_plot.specs.Shown.{HasLine};
    ghost use Rattle.tape_plot.specs.declared.highest.Buffer.TheVariants as buffers;
    ghost use Rattle.flow_rules.specs.declared.ids.BufferId.TheVariants as ids;

    /// No rows. Takes no memory.
    pub fn new(alloc: Global, frame: Frame) -> Self
        ensures { result.sheet.frame ≡ frame }
    {
        Rows {
            sheet: Sheet::new(alloc, frame),
            y: AXIS + 10,
            lanes: 0,
            bars: 0,
        }
    }

    /// A row for the dooms, one for the closes and one for the fires, where there are any.
    pub fn put_events(&mut self, plot: &Plot) -> Result<(), NoMemory>
        ensures { OnOk result (Grows self.old.sheet self.new.sheet) }
    {
        self.put_marks(Shape::Triangle, &plot.dooms)?;
        self.put_marks(Shape::Square, &plot.closes)?;
        self.put_marks(Shape::Diamond, &plot.fires)?;
        self.y = self.y.saturating_add(6);
        Ok(())
    }

    fn put_marks(&mut self, shape: Shape, marks: &Marks) -> Result<(), NoMemory>
        ensures { OnOk result (Grows self.old.sheet self.new.sheet) }
    {
        if marks.marks().is_empty() {
            return Ok(());
        }
        let mut text = self.sheet.piece();
        put_row(&mut text, &self.sheet.frame, self.y, shape, marks.marks())?;
        self.y = self.y.saturating_add(16);
        self.sheet.push(text)
    }

    /// The lanes that are picked, of flows with their bars and then of connections.
    pub fn put_levels(
        &mut self,
        levels: &Levels,
        limits: &Limits,
        pick: &Pick,
    ) -> Result<(), NoMemory>
        ensures { OnOk result (LevelsDrawn (Contains self.new.sheet.pieces.items) self.old.sheet.frame.first self.old.sheet.frame.end limits.now pick.now levels.now) }
    {
        self.put_exchanges(&levels.exchanges, limits, pick)?;
        self.put_connections(&levels.connections, limits, pick)
    }

    fn put_exchanges(
        &mut self,
        exchanges: &Exchanges,
        limits: &Limits,
        pick: &Pick,
    ) -> Result<(), NoMemory>
        ensures grows { OnOk result (Grows self.old.sheet self.new.sheet) }
        ensures drawn { OnOk result (All (λ e. ExchangeDrawn self.new.sheet limits.now pick.now e.0 e.1) exchanges.now.items.entries) }
    {
        for (number, exchange) in exchanges.items.iter() {
            self.put_exchange(*number, exchange, limits, pick)?;
        }
        Ok(())
    }

    fn put_connections(
        &mut self,
        connections: &Connections,
        limits: &Limits,
        pick: &Pick,
    ) -> Result<(), NoMemory>
        ensures grows { OnOk result (Grows self.old.sheet self.new.sheet) }
        ensures drawn { OnOk result (All (λ e. WriteDrawn self.new.sheet limits.now pick.now e.0 e.1) connections.now.items.entries) }
    {
        for (conn, connection) in connections.items.iter() {
            self.put_write(*conn, &connection.write, limits, pick)?;
        }
        Ok(())
    }

    fn put_write(
        &mut self,
        conn: u32,
        write: &Place,
        limits: &Limits,
        pick: &Pick,
    ) -> Result<(), NoMemory>
        ensures grows { OnOk result (Grows self.old.sheet self.new.sheet) }
        ensures drawn { OnOk result (IsPicked pick.now (buffers.Write conn) → Has self.new.sheet (known (limit_at limits.now (ids.Write conn))) (drawn_of write.now.lane)) }
    {
        let is_picked = pick.takes(Buffer::Write(conn));
        self.put_place(Name::Write(conn), write, limits.of_write(conn), is_picked)
    }

    fn put_exchange(
        &mut self,
        number: u64,
        exchange: &Exchange,
        limits: &Limits,
        pick: &Pick,
    ) -> Result<(), NoMemory>
        ensures grows { OnOk result (Grows self.old.sheet self.new.sheet) }
        ensures drawn { OnOk result (ExchangeDrawn self.new.sheet limits.now pick.now number exchange.now) }
    {
        let request = FlowId {
            exchange: number,
            back: false,
        };
        let response = FlowId {
            exchange: number,
            back: true,
        };
        self.put_flow(request, exchange, limits, pick)?;
        self.put_flow(response, exchange, limits, pick)
    }

    // The lanes of a flow of an exchange, and its bar.
    fn put_flow(
        &mut self,
        id: FlowId,
        exchange: &Exchange,
        limits: &Limits,
        pick: &Pick,
    ) -> Result<(), NoMemory>
        ensures grows { OnOk result (Grows self.old.sheet self.new.sheet) }
        ensures drawn { OnOk result (FlowDrawn self.new.sheet limits.now pick.now id exchange.now) }
    {
        let before = self.lanes;
        let flow = exchange.flow(id.back);
        self.put_places(id, flow, limits, pick)?;
        let is_paused = exchange.relay.is_some() && flow.count.most() > 0;
        if self.lanes > before || is_paused && pick.takes_bar(id, self.bars) {
            return self.put_count(id, &flow.count, exchange.doom.as_ref());
        }
        Ok(())
    }

    fn put_places(
        &mut self,
        id: FlowId,
        flow: &Flow,
        limits: &Limits,
        pick: &Pick,
    ) -> Result<(), NoMemory>
        ensures grows { OnOk result (Grows self.old.sheet self.new.sheet) }
        ensures drawn { OnOk result (PlacesDrawn self.new.sheet limits.now pick.now id flow.now.places.items (length flow.now.places.items)) }
    {
        let end = flow.place_count()?;
        let sends = flow.sends || end > 1 && limits.is_send(id, end);
        let mut i = 0;
        while i < end {
            let limit = limits.of_place(id, i, end);
            let name = Name::of_place(id, i, end, sends, limit);
            let is_picked = pick.takes(Buffer::Place(id, i));
            self.put_place(name, &flow.places[i as usize], limit, is_picked)?;
            i += 1;
        }
        Ok(())
    }

    // The bar of a flow, with its doom.
    fn put_count(&mut self, id: FlowId, count: &Lane, doom: Option<&Mark>) -> Result<(), NoMemory>
        ensures { OnOk result (Grows self.old.sheet self.new.sheet) }
    {
        self.bars = self.bars.saturating_add(1);
        let mut text = self.sheet.piece();
        put_bar_row(&mut text, &self.sheet.frame, self.y, id, count)?;
        if let Some(mark) = doom {
            put_doom(&mut text, &self.sheet.frame, self.y, mark)?;
        }
        self.y = self.y.saturating_add(BAR + 14);
        self.sheet.push(text)
    }

    // The lane of a buffer that ever held an octet.
    fn put_place(
        &mut self,
        name: Name,
        place: &Place,
        limit: Option<u32>,
        is_picked: bool,
    ) -> Result<(), NoMemory>
        ensures grows { OnOk result (Grows self.old.sheet self.new.sheet) }
        ensures drawn { OnOk result (is_picked ≡ true → Has self.new.sheet (known limit) (drawn_of place.now.lane)) }
    {
        if place.lane.most() == 0 {
            return Ok(());
        }
        if !is_picked {
            return Ok(());
        }
        self.lanes = self.lanes.saturating_add(1);
        let lane = place.lane.fitted(self.sheet.frame.width)?;
        self.put_lane(name, &lane, limit)
    }

    fn put_lane(&mut self, name: Name, lane: &Lane, limit: Option<u32>) -> Result<(), NoMemory>
        ensures grows { OnOk result (Grows self.old.sheet self.new.sheet) }
        ensures drawn { OnOk result (HasLine (Contains self.new.sheet.pieces.items) self.old.sheet.frame.first self.old.sheet.frame.end (known limit) (drawn_of lane.now)) }
    {
        let scene = Scene::new(&self.sheet.frame, self.y, lane, known(limit));
        self.put_head(&scene, name, lane, limit)?;
        self.put_line(&scene, lane)?;
        self.put_tail(&scene, name, lane, limit)?;
        self.y = self.y.saturating_add(LANE + 8);
        Ok(())
    }

    // What stands before the line of a lane.
    fn put_head(
        &mut self,
        scene: &Scene,
        name: Name,
        lane: &Lane,
        limit: Option<u32>,
    ) -> Result<(), NoMemory>
        ensures { OnOk result (Grows self.old.sheet self.new.sheet) }
    {
        let mut text = self.sheet.piece();
        put_names(&mut text, scene.y, name, lane.most(), limit)?;
        put_field(&mut text, scene)?;
        self.sheet.push(text)
    }

    // The line of a lane is a piece of its own.
    fn put_line(&mut self, scene: &Scene, lane: &Lane) -> Result<(), NoMemory>
        ensures grows { OnOk result (Grows self.old.sheet self.new.sheet) }
        ensures put { OnOk result (Contains self.new.sheet.pieces.items (path_text scene.now lane.now.base lane.now.points.items)) }
    {
        let mut text = self.sheet.piece();
        put_path(&mut text, scene, lane)?;
        self.sheet.push(text)
    }

    // What stands behind the line of a lane.
    fn put_tail(
        &mut self,
        scene: &Scene,
        name: Name,
        lane: &Lane,
        limit: Option<u32>,
    ) -> Result<(), NoMemory>
        ensures { OnOk result (Grows self.old.sheet self.new.sheet) }
    {
        let mut text = self.sheet.piece();
        put_limits(&mut text, scene, lane, known(limit), name.is_watched())?;
        self.sheet.push(text)
    }
}
