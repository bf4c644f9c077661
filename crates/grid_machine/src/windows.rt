//! The window keeps the contracts of `Windows`.

use crate::window::GridWindow;
use crate::{asking, events, older, ready, requests, tokens, violations};
use arrayvec::ArrayVec;
use block_check::CheckedImage;
use frame_state::Event;
use grid_parts::{Request, Windows};
use trips_isa::{Inst, Stepped};

impl Windows for GridWindow {
    ghost held = { λ w. w.window };

    ghost blocks = { λ w. w.image.blocks };

    ghost budget = { λ w. w.budget };

    fn image(&self) -> &CheckedImage {
        self.window.image()
    }

    fn committed(&self) -> u64 {
        self.window.arch().trace().len() as u64
    }

    fn over(&self) -> Stepped {
        self.window.over()
    }

    fn numbers(&self) -> ArrayVec<u8, 8> {
        asking::numbers(&self.window)
    }

    fn lowest_empty(&self) -> Option<u8> {
        asking::lowest_empty(&self.window)
    }

    fn has_room(&self) -> bool {
        asking::has_room(&self.window, &self.shapes)
    }

    fn successor(&self) -> Option<u32> {
        self.window.successor()
    }

    fn generation(&self, frame: u8) -> u64 {
        self.window.generation(frame)
    }

    fn block_of(&self, frame: u8) -> Option<u32> {
        asking::block_of(&self.window, frame)
    }

    fn exit_of(&self, frame: u8) -> Option<u8> {
        asking::exit_of(&self.window, frame)
    }

    fn inst_of(&self, frame: u8, slot: u8) -> Option<Inst> {
        asking::inst_of(&self.window, frame, slot)
    }

    fn register_of(&self, frame: u8, read: u8) -> Option<u8> {
        asking::register_of(&self.window, frame, read)
    }

    fn has_token(&self, frame: u8, place: u16) -> bool {
        tokens::has_token(&self.window, frame, place)
    }

    fn home_of(&self, frame: u8, place: u16) -> u8 {
        tokens::home_of(&self.window, frame, place)
    }

    fn waits_at(&self, frame: u8, number: u8) -> Option<u8> {
        requests::waits_at(&self.window, frame, number)
    }

    fn request_of(&self, frame: u8, number: u8) -> Option<Request> {
        requests::request_of(&self.window, frame, number)
    }

    fn tile_at(&self, frame: u8, slot: u8) -> u8 {
        requests::tile_at(&self.window, frame, slot)
    }

    fn settled(&self, frame: u8, number: u8) -> bool {
        older::settled(&self.window, frame, number)
    }

    fn wrong_load(&self, frame: u8, number: u8) -> Option<(u8, u8)> {
        violations::wrong_load(&self.window, frame, number)
    }

    fn ready(&self, frame: u8) -> u128 {
        ready::ready(&self.window, &self.shapes, frame)
    }

    fn unread(&self, frame: u8) -> u32 {
        ready::unread(&self.window, frame)
    }

    fn can_read(&self, frame: u8, read: u8) -> bool {
        events::may(&self.window, Event::Read { frame, read })
    }

    fn can_seal(&self, frame: u8) -> bool {
        events::may(&self.window, Event::Seal { frame })
    }

    fn can_commit(&self) -> bool {
        events::may(&self.window, Event::Commit)
    }

    fn can_fetch(&self, block: u32) -> bool {
        events::may(&self.window, Event::Fetch { block })
    }

    fn fetch(&mut self, block: u32) {
        let _ = self.window.event(Event::Fetch { block });
    }

    fn read(&mut self, frame: u8, read: u8) {
        let _ = self.window.event(Event::Read { frame, read });
    }

    fn fire(&mut self, frame: u8, slot: u8) {
        let _ = self.window.event(Event::Fire { frame, slot });
    }

    fn deliver(&mut self, frame: u8, place: u16) {
        let token = 320 * frame as u16 + place;
        let _ = self.window.event(Event::Deliver { token });
    }

    fn load(&mut self, frame: u8, number: u8) {
        let _ = self.window.event(Event::Load { frame, number });
    }

    fn store(&mut self, frame: u8, number: u8) {
        let _ = self.window.event(Event::Store { frame, number });
    }

    fn exit(&mut self, frame: u8) {
        let _ = self.window.event(Event::Exit { frame });
    }

    fn seal(&mut self, frame: u8) {
        let _ = self.window.event(Event::Seal { frame });
    }

    fn commit(&mut self) {
        let _ = self.window.event(Event::Commit);
    }

    fn empty(&mut self) {
        self.window.empty();
    }
}
