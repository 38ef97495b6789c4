//! Distances from all unmatched columns at once, or from all unmatched rows.

ghost use Rattle.std.specs.Prelude.{◌≡◌, ℕ, ◌+◌, ◌<◌, ◌≤◌, length, IfOk, IfSome, OnOk};
ghost use Rattle.bip_defs.specs.Lists.{Among};
ghost use Rattle.bip_defs.specs.Matrix.{cols};
ghost use Rattle.integer_diagonal.specs.Amounts.{HasRoom};
ghost use Rattle.integer_diagonal.specs.Duals.{IsAssignment};
ghost use Rattle.integer_diagonal.specs.Distances.{AreNear, AreWithin};

use crate::amount::Amount;
use crate::assignment::Assignment;
use crate::frontier::Frontier;
use crate::side::VertexSide;
use crate::weighted_pattern::WeightedPattern;
use crate::width::Width;
use bip_graph::Matching;
use sp_ids::{Col, Id, OutOfMemory, Row};
use sp_pattern::Neighbours;
use std::alloc::{AllocError, Global};

/// How far the vertices of one side are from the nearest unmatched one of the other by reduced costs,
/// those that are no farther than `radius`. The distance of each other one is more, or not known.
///
/// The side that is searched from is called near, the other far.
#[derive(Drop)]
pub struct Distances<W: Width> {
    pub side: VertexSide,
    pub of_far: Vec<Amount<W>>,
    pub radius: Amount<W>,
    pub frontier: Frontier<W>,
}

impl<W: Width> Distances<W> {
    /// Goes from all unmatched vertices of a side at once to those of the other that are nearest by
    /// reduced cost, and on from each matched one by its mate, until four in five of so many
    /// unmatched ones are reached, or there are no more within the greatest cost (Dijkstra 1959).
    ///
    /// Returns `OutOfMemory` if it cannot allocate the distances, or the heap. Work: at most one
    /// look at each entry.
    pub fn spread(
        alloc: Global,
        graph: &WeightedPattern,
        assignment: &Assignment<W>,
        side: VertexSide,
        unmatched: u32,
    ) -> Result<Distances<W>, OutOfMemory>
        requires square { graph.now.weights.now.matrix.rows ≡ cols graph.now.weights.now.matrix }
        requires assignment { IsAssignment graph.now.weights.now assignment.now }
        requires room { HasRoom (cols graph.now.weights.now.matrix) assignment.now.top W.limit }
        ensures { IfOk result
            (λ l. AreWithin graph.now.weights.now.matrix.rows assignment.now.top l) }
    {
        let of_far = vec![in alloc; Amount::infinity(); graph.weights.rows() as usize]?;
        let mut distances = Distances {
            side,
            of_far,
            radius: Amount::zero(),
            frontier: Frontier::new(alloc),
        };
        for near in 0..graph.weights.rows() {
            if side.mate(&assignment.matching, near).is_none() {
                distances.scan(graph, assignment, near, Amount::zero())?;
            }
        }
        distances.settle(graph, assignment, unmatched.saturating_sub(unmatched / 5))?;
        Ok(distances)
    }

    /// By how much the price of a row rises, or the dual variable of a column: by how much nearer
    /// than the radius it is, or by its distance, where that is from the rows.
    pub fn rise(&self, matching: &Matching, of: VertexSide, vertex: u32) -> Amount<W>
        requires vertex { vertex < matching.now.rows }
        requires square { matching.now.rows ≡ matching.now.cols }
        requires far { length self.now.of_far.items ≡ matching.now.rows }
        requires fits { self.now.radius < W.limit }
        ensures { result ≤ self.now.radius }
    {
        let label = if of == self.side {
            self.label_of_near(matching, vertex)
        } else {
            self.label(vertex)
        };
        match self.side {
            VertexSide::Columns => self.radius - label,
            VertexSide::Rows => label,
        }
    }

    // The distance of a far vertex, or the radius where that is less.
    fn label(&self, far: u32) -> Amount<W>
        requires far { far < length self.now.of_far.items }
        ensures { result ≤ self.now.radius }
    {
        let distance = self.of_far[far as usize];
        if distance < self.radius {
            return distance;
        }
        self.radius
    }

    // That of the mate of a near vertex, or nothing where it has none.
    fn label_of_near(&self, matching: &Matching, near: u32) -> Amount<W>
        requires near { near < matching.now.rows }
        requires square { matching.now.rows ≡ matching.now.cols }
        requires far { length self.now.of_far.items ≡ matching.now.rows }
        ensures { result ≤ self.now.radius }
    {
        match self.side.mate(matching, near) {
            Some(far) => self.label(far),
            None => Amount::zero(),
        }
    }

    // Takes out the nearest far vertices, one after another, until so many unmatched ones are among
    // them.
    fn settle(
        &mut self,
        graph: &WeightedPattern,
        assignment: &Assignment<W>,
        wanted: u32,
    ) -> Result<(), AllocError>
        requires square { graph.now.weights.now.matrix.rows ≡ cols graph.now.weights.now.matrix }
        requires assignment { IsAssignment graph.now.weights.now assignment.now }
        requires room { HasRoom (cols graph.now.weights.now.matrix) assignment.now.top W.limit }
        requires near { AreNear graph.now.weights.now.matrix.rows assignment.now.top self.old }
        ensures { OnOk result
            (AreWithin graph.now.weights.now.matrix.rows assignment.now.top self.new) }
    {
        let mut wanted = wanted;
        for _turn in 0..graph.weights.rows() {
            if wanted == 0 {
                return Ok(());
            }
            match self.next() {
                Some(nearest) => {
                    let (distance, far) = nearest;
                    self.radius = distance;
                    match self.side.other().mate(&assignment.matching, far) {
                        Some(near) => self.scan(graph, assignment, near, distance)?,
                        None => wanted -= 1,
                    }
                }
                None => return Ok(()),
            }
        }
        Ok(())
    }

    // Takes out the nearest far vertex that has not been taken out.
    fn next(&mut self) -> Option<(Amount<W>, u32)>
        requires { (e : ℕ × ℕ) → Among e self.old.frontier → e.1 < length self.old.of_far.items }
        ensures taken { IfSome result (λ e. Among e self.old.frontier) }
        ensures rest { IfSome result
            (λ _. (e : ℕ × ℕ) → Among e self.new.frontier → Among e self.old.frontier) }
        ensures of_far { self.new.of_far ≡ self.old.of_far }
        ensures radius { self.new.radius ≡ self.old.radius }
    {
        while let Some(nearest) = self.frontier.pop() {
            let (distance, far) = nearest;
            if distance == self.of_far[far as usize] {
                return Some((distance, far));
            }
        }
        None
    }

    // Looks at the entries of a near vertex at this distance.
    fn scan(
        &mut self,
        graph: &WeightedPattern,
        assignment: &Assignment<W>,
        near: u32,
        depth: Amount<W>,
    ) -> Result<(), AllocError>
        requires square { graph.now.weights.now.matrix.rows ≡ cols graph.now.weights.now.matrix }
        requires assignment { IsAssignment graph.now.weights.now assignment.now }
        requires room { HasRoom (cols graph.now.weights.now.matrix) assignment.now.top W.limit }
        requires vertex { near < graph.now.weights.now.matrix.rows }
        requires depth { depth ≤ assignment.now.top }
        requires near { AreNear graph.now.weights.now.matrix.rows assignment.now.top self.old }
        ensures { OnOk result
            (AreNear graph.now.weights.now.matrix.rows assignment.now.top self.new) }
    {
        match self.side {
            VertexSide::Columns => self.scan_col(graph, assignment, Col(near), depth),
            VertexSide::Rows => self.scan_row(graph, assignment, Row(near), depth),
        }
    }

    // Looks at the entries of a column at this distance.
    fn scan_col(
        &mut self,
        graph: &WeightedPattern,
        assignment: &Assignment<W>,
        col: Col,
        depth: Amount<W>,
    ) -> Result<(), AllocError>
        requires assignment { IsAssignment graph.now.weights.now assignment.now }
        requires room { HasRoom (cols graph.now.weights.now.matrix) assignment.now.top W.limit }
        requires col { col < cols graph.now.weights.now.matrix }
        requires depth { depth ≤ assignment.now.top }
        requires near { AreNear graph.now.weights.now.matrix.rows assignment.now.top self.old }
        ensures { OnOk result
            (AreNear graph.now.weights.now.matrix.rows assignment.now.top self.new) }
    {
        let farthest = Amount::of(assignment.top);
        let dual = assignment.duals[col.0 as usize];
        let rows = graph.weights.rows_of(col);
        let weights = graph.weights.weights_of(col);
        for k in 0..rows.len() {
            let row = rows[k].number();
            let price = assignment.prices[row as usize];
            let distance = assignment.distance(price, weights[k], dual, depth);
            self.look(row, distance, farthest)?;
        }
        Ok(())
    }

    // Looks at the entries of a row at this distance.
    fn scan_row(
        &mut self,
        graph: &WeightedPattern,
        assignment: &Assignment<W>,
        row: Row,
        depth: Amount<W>,
    ) -> Result<(), AllocError>
        requires assignment { IsAssignment graph.now.weights.now assignment.now }
        requires room { HasRoom (cols graph.now.weights.now.matrix) assignment.now.top W.limit }
        requires row { row < graph.now.weights.now.matrix.rows }
        requires depth { depth ≤ assignment.now.top }
        requires near { AreNear (cols graph.now.weights.now.matrix) assignment.now.top self.old }
        ensures { OnOk result
            (AreNear (cols graph.now.weights.now.matrix) assignment.now.top self.new) }
    {
        let farthest = Amount::of(assignment.top);
        let price = assignment.prices[row.0 as usize];
        let cols = graph.weights.pattern().cols_of(row);
        let weights = graph.weights_of_row(row);
        for k in 0..cols.len() {
            let col = cols[k];
            let dual = assignment.duals[col.0 as usize];
            let distance = assignment.distance(price, weights[k], dual, depth);
            self.look(col.0, distance, farthest)?;
        }
        Ok(())
    }

    // Notes the distance of a far vertex, if it is nearer than was known, and not farther than this.
    fn look(&mut self, far: u32, distance: Amount<W>, farthest: Amount<W>) -> Result<(), AllocError>
        requires { far < length self.old.of_far.items }
        ensures { OnOk result (AreNear (length self.old.of_far.items) farthest self.old
            → AreNear (length self.old.of_far.items) farthest self.new) }
    {
        if farthest < distance {
            return Ok(());
        }
        if distance >= self.of_far[far as usize] {
            return Ok(());
        }
        self.of_far[far as usize] = distance;
        self.frontier.push(distance, far)?;
        Ok(())
    }
}
