use super::Network;
use crate::flight::Flight;
use crate::send_request::SendRequest;
use std::alloc::AllocError;

/// The packets of a network.
impl Network {
    ghost use Rattle.std.specs.Prelude.{◌≡◌, ◌<◌, ◌⊎◌, ◌↔◌, false, IfOk, IfSome, IsSome, OnErr, OnOk};
    ghost use Rattle.network.specs.Events.{Unchanged};
    ghost use Rattle.network.specs.Flight.{flight_of, path_of};
    ghost use Rattle.network.specs.Model.{nodes_in, packets_in, path_of_packet, system};
    ghost use Rattle.network.specs.Packets.{ArrivesAfter, ArrivesCalm, Hops, Moves, Puts, Sends, SendsAfter, SendsCalm};
    ghost use Rattle.protocol.specs.Playing.{is_under_way};

    /// A packet by its number, which counts from 0.
    pub fn flight(&self, number: usize) -> Option<&Flight>
        ensures some { IsSome result ↔ (number < packets_in self.now) }
        ensures value { IfSome result (λ f. flight_of f.now ≡ (system self.now).flights number) }
        ensures path { IfSome result (λ f. path_of f.now ≡ path_of_packet self.now number) }
    {
        self.flights.get(number)
    }

    /// A packet waits at its start. Returns its number, which counts from 0.
    pub fn put(&mut self, request: SendRequest) -> Result<usize, AllocError>
        requires { request.start < nodes_in self.old }
        ensures ok { IfOk result (λ q. Puts request q self.old self.new) }
        ensures memory { OnErr result (Unchanged self.old self.new) }
    {
        let number = self.flights.len();
        let flight = Flight::new(*self.flights.allocator(), request)?;
        self.flights.push(flight)?;
        Ok(number)
    }

    /// A packet is put, and played to its end. Returns its number. Where memory is wanting, it may be on its way.
    pub fn send(&mut self, request: SendRequest) -> Result<usize, AllocError>
        requires { request.start < nodes_in self.old }
        ensures sends { IfOk result (λ q. Sends request q self.old self.new) }
        ensures ends { IfOk result (λ q. is_under_way ((system self.new).flights q) ≡ false) }
        ensures arrives { IfOk result (λ q. SendsAfter request q self.old self.new) }
        ensures arrives_calm { IfOk result (λ q. SendsCalm request q self.old self.new) }
        ensures memory { OnErr result (Unchanged self.old self.new ⊎
            Sends request (packets_in self.old) self.old self.new) }
    {
        let number = self.put(request)?;
        self.play(number)?;
        Ok(number)
    }

    /// A packet is handled once, by the router where it is; nothing changes where it is not under way.
    pub fn hop(&mut self, number: usize) -> Result<(), AllocError>
        ensures ok { OnOk result (Hops number self.old self.new) }
        ensures memory { OnErr result (Unchanged self.old self.new) }
    {
        let Some(flight) = self.flights.get_mut(number) else {
            return Ok(());
        };
        let Some(router) = self.routers.get(flight.at().index()) else {
            return Ok(());
        };
        flight.hop(router)
    }

    /// A packet is handled until it ends, with nothing else happening. Where memory is wanting, it may still be under way.
    pub fn play(&mut self, number: usize) -> Result<(), AllocError>
        ensures moves { Moves number self.old self.new }
        ensures ends { OnOk result (is_under_way ((system self.new).flights number) ≡ false) }
        ensures arrives { OnOk result (ArrivesAfter number self.old self.new) }
        ensures arrives_calm { OnOk result (ArrivesCalm number self.old self.new) }
    {
        while self.is_under_way(number) {
            self.hop(number)?;
        }
        Ok(())
    }

    fn is_under_way(&self, number: usize) -> bool
        ensures { result ≡ is_under_way ((system self.now).flights number) }
    {
        self.flight(number).is_some_and(Flight::is_under_way)
    }
}
