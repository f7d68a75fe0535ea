//! Values and places.
ghost use Rattle.std.specs.Prelude.{◌≡◌, codes, true, false, IfOk};
ghost use Rattle.mr_ast.specs.Forms.{Part};
ghost use Rattle.mr_ast.specs.Writing.{ThePlace, TheType, TheValue, giving, num_form, u64_form, ◌▪◌, ◌◂◌};
ghost use Rattle.mr_ast.specs.ValueGrammar.{base_form, begins_postfix, deref_form, global_value_form, judged_value, more_values_form, postfix_form, postfixes_form, value_behind, with_postfix};
ghost use Rattle.mr_parse.specs.ReaderGives.{Gives};
ghost use Rattle.mr_grammar.specs.Insides.{begins_with_type, is_bracketed, value_inside};
ghost use Rattle.mr_grammar.specs.Reading.{first_at, is_next, read, read_outside, read_part};
ghost use Rattle.mr_parse.specs.Postfixes.{indexed, postfix_of, with_all};

use crate::reader::{Reader, beside, pushed};
use mr_ast::{
    BinaryOp, Boxed, Bracket, FnName, GlobalName, Items, LocalName, MAX_OPEN, Num, Place, Role, Ty,
    Value, ValueWord,
};
use mr_words::{
    EXPOSED, ReadFault, Scope, TOO_DEEP, TOO_MANY, UNEXPECTED, is_exposed, value_word_of,
};
use std::alloc::{AllocError, Global};

// What stands behind a place and makes another of it.
#[derive(Drop)]
enum Postfix {
    Field(u64),
    Index(Value),
    Variant(Num),
}

// Whether brackets stand behind the first word of a value.
fn is_bracketed(word: ValueWord) -> bool
    ensures { result ≡ is_bracketed word }
{
    match word {
        ValueWord::Int(_)
        | ValueWord::True
        | ValueWord::False
        | ValueWord::Raw
        | ValueWord::Fn
        | ValueWord::Global => false,
        _ => true,
    }
}

impl<'a> Reader<'a> {
    #[tactic(auto, unfolding(mr_ast::specs::ValueGrammar::judged_value))]
    fn value_word(&mut self) -> Result<ValueWord, ReadFault>
        ensures { Gives (λ w. (w, self.new)) result (first_at judged_value self.old) }
    {
        let next = match self.peek() {
            Some(next) => next,
            None => return Err(self.stop(UNEXPECTED)),
        };
        if is_exposed(next.text) {
            return Err(self.stop(EXPOSED));
        }
        match value_word_of(next.text) {
            Some(word) => {
                self.advance();
                Ok(word)
            }
            None => Err(self.stop(UNEXPECTED)),
        }
    }

    /// A value, in which so many brackets may be opened.
    #[cycle(values)]
    #[tactic(auto, unfolding(mr_grammar::specs::Reading::read_part, mr_ast::specs::ValueGrammar::value_form))]
    pub fn value(&mut self, alloc: Global, scope: &Scope<'_>, room: u32) -> Result<Value, ReadFault>
        ensures { Gives (λ v. (v, self.new)) result (read_part room scope.now TheValue self.old) }
    {
        let word = self.value_word()?;
        if is_bracketed(word) {
            self.bracketed(alloc, scope, room, word)
        } else {
            self.plain_value(scope, room, word)
        }
    }

    // What stands behind the first word of a value without brackets.
    fn plain_value(&mut self, scope: &Scope, room: u32, word: ValueWord) -> Result<Value, ReadFault>
        requires { is_bracketed word ≡ false }
        ensures { Gives (λ v. (v, self.new)) result (read_outside room scope.now (value_behind word) self.old) }
    {
        match word {
            ValueWord::Int(int) => Ok(Value::Int(int, self.num(scope, room)?)),
            ValueWord::True => Ok(Value::True),
            ValueWord::False => Ok(Value::False),
            ValueWord::Raw => Ok(Value::Raw(self.number()?)),
            ValueWord::Fn => {
                let number = self.name(scope, false, Role::UsesFunction)?;
                Ok(Value::Fn(FnName(number)))
            }
            ValueWord::Global => self.global_value(scope, room),
            _ => unreachable!(),
        }
    }

    // What stands behind the first word of a value with brackets.
    #[cycle(values)]
    #[tactic(auto, using(mr_grammar::proofs::Walk::InsideLaws::inside, mr_grammar::proofs::Walk::BracketLaws::behind_bracketed))]
    fn bracketed(
        &mut self,
        alloc: Global,
        scope: &Scope<'_>,
        room: u32,
        word: ValueWord,
    ) -> Result<Value, ReadFault>
        requires { is_bracketed word ≡ true }
        ensures { Gives (λ v. (v, self.new)) result (read_outside room scope.now (value_behind word) self.old) }
    {
        let inner = self.open(Bracket::Round, room)?;
        match self.value_inside(alloc, scope, inner, word) {
            Ok(value) => self.closed(value, Bracket::Round),
            Err(fault) => Err(fault),
        }
    }

    // A value, from what stands in its brackets.
    #[cycle(values)]
    fn value_inside(
        &mut self,
        alloc: Global,
        scope: &Scope<'_>,
        room: u32,
        word: ValueWord,
    ) -> Result<Value, ReadFault>
        requires { is_bracketed word ≡ true }
        ensures { Gives (λ v. (v, self.new)) result (read room scope.now (value_inside word) self.old) }
    {
        match word {
            ValueWord::Load => Ok(Value::Load(self.place(alloc, scope, room, false)?)),
            ValueWord::Disc => Ok(Value::Disc(self.place(alloc, scope, room, false)?)),
            ValueWord::Cast => {
                let int = self.int()?;
                self.expect(b",")?;
                let value = self.boxed_value(alloc, scope, room)?;
                Ok(Value::Cast(int, value))
            }
            ValueWord::Unary(op) => Ok(Value::Unary(op, self.boxed_value(alloc, scope, room)?)),
            ValueWord::Binary(op) => self.binary_inside(alloc, scope, room, op),
            _ => self.typed_inside(alloc, scope, room, word),
        }
    }

    #[cycle(values)]
    fn binary_inside(
        &mut self,
        alloc: Global,
        scope: &Scope<'_>,
        room: u32,
        op: BinaryOp,
    ) -> Result<Value, ReadFault>
        ensures { Gives (λ v. (v, self.new)) result
            (read room scope.now (value_inside (ValueWord.Binary op)) self.old) }
    {
        match self.value_and_comma(alloc, scope, room) {
            Ok(left) => match beside(left, self.boxed_value(alloc, scope, room)) {
                Ok((left, right)) => Ok(Value::Binary(op, left, right)),
                Err(fault) => Err(fault),
            },
            Err(fault) => Err(fault),
        }
    }

    // A value, and a comma behind it.
    #[cycle(values)]
    fn value_and_comma(
        &mut self,
        alloc: Global,
        scope: &Scope<'_>,
        room: u32,
    ) -> Result<Boxed<Value>, ReadFault>
        ensures { Gives (λ v. (v, self.new)) result (read room scope.now (Part TheValue ◂ codes ",") self.old) }
    {
        match self.boxed_value(alloc, scope, room) {
            Ok(value) => self.followed(value, b","),
            Err(fault) => Err(fault),
        }
    }

    // A value, from what stands in its brackets, of which the first is a type.
    #[cycle(values)]
    fn typed_inside(
        &mut self,
        alloc: Global,
        scope: &Scope<'_>,
        room: u32,
        word: ValueWord,
    ) -> Result<Value, ReadFault>
        requires { begins_with_type word ≡ true }
        ensures { Gives (λ v. (v, self.new)) result (read room scope.now (value_inside word) self.old) }
    {
        match word {
            ValueWord::Tuple => self.tuple_inside(alloc, scope, room),
            ValueWord::AddrOf => self.address_inside(alloc, scope, room),
            ValueWord::Transmute => self.transmuted_inside(alloc, scope, room),
            ValueWord::Union => self.union_inside(alloc, scope, room),
            ValueWord::Variant => self.variant_inside(alloc, scope, room),
            _ => unreachable!(),
        }
    }

    // A type, and a comma behind it.
    fn type_and_comma(
        &mut self,
        alloc: Global,
        scope: &Scope<'_>,
        room: u32,
    ) -> Result<Ty, ReadFault>
        ensures { Gives (λ t. (t, self.new)) result (read room scope.now (Part TheType ◂ codes ",") self.old) }
    {
        match self.ty(alloc, scope, room) {
            Ok(ty) => self.followed(ty, b","),
            Err(fault) => Err(fault),
        }
    }

    #[cycle(values)]
    fn tuple_inside(
        &mut self,
        alloc: Global,
        scope: &Scope<'_>,
        room: u32,
    ) -> Result<Value, ReadFault>
        ensures { Gives (λ v. (v, self.new)) result (read room scope.now (value_inside ValueWord.Tuple) self.old) }
    {
        match self.ty(alloc, scope, room) {
            Ok(ty) => match beside(ty, self.more_values(alloc, scope, room)) {
                Ok((ty, values)) => Ok(Value::Tuple(ty, values)),
                Err(fault) => Err(fault),
            },
            Err(fault) => Err(fault),
        }
    }

    #[cycle(values)]
    fn address_inside(
        &mut self,
        alloc: Global,
        scope: &Scope<'_>,
        room: u32,
    ) -> Result<Value, ReadFault>
        ensures { Gives (λ v. (v, self.new)) result (read room scope.now (value_inside ValueWord.AddrOf) self.old) }
    {
        match self.type_and_comma(alloc, scope, room) {
            Ok(ty) => match beside(ty, self.place(alloc, scope, room, false)) {
                Ok((ty, place)) => Ok(Value::AddrOf(ty, place)),
                Err(fault) => Err(fault),
            },
            Err(fault) => Err(fault),
        }
    }

    #[cycle(values)]
    fn transmuted_inside(
        &mut self,
        alloc: Global,
        scope: &Scope<'_>,
        room: u32,
    ) -> Result<Value, ReadFault>
        ensures { Gives (λ v. (v, self.new)) result (read room scope.now (value_inside ValueWord.Transmute) self.old) }
    {
        match self.type_and_comma(alloc, scope, room) {
            Ok(ty) => match beside(ty, self.boxed_value(alloc, scope, room)) {
                Ok((ty, value)) => Ok(Value::Transmute(ty, value)),
                Err(fault) => Err(fault),
            },
            Err(fault) => Err(fault),
        }
    }

    #[cycle(values)]
    fn union_inside(
        &mut self,
        alloc: Global,
        scope: &Scope<'_>,
        room: u32,
    ) -> Result<Value, ReadFault>
        ensures { Gives (λ v. (v, self.new)) result (read room scope.now (value_inside ValueWord.Union) self.old) }
    {
        match self.type_and_comma(alloc, scope, room) {
            Ok(ty) => match beside(ty, self.field_and_value(alloc, scope, room)) {
                Ok((ty, (field, value))) => Ok(Value::Union(ty, field, value)),
                Err(fault) => Err(fault),
            },
            Err(fault) => Err(fault),
        }
    }

    #[cycle(values)]
    fn variant_inside(
        &mut self,
        alloc: Global,
        scope: &Scope<'_>,
        room: u32,
    ) -> Result<Value, ReadFault>
        ensures { Gives (λ v. (v, self.new)) result (read room scope.now (value_inside ValueWord.Variant) self.old) }
    {
        match self.type_and_comma(alloc, scope, room) {
            Ok(ty) => match beside(ty, self.number_and_value(alloc, scope, room)) {
                Ok((ty, (number, value))) => Ok(Value::Variant(ty, number, value)),
                Err(fault) => Err(fault),
            },
            Err(fault) => Err(fault),
        }
    }

    // The position of a field, and its value.
    #[cycle(values)]
    fn field_and_value(
        &mut self,
        alloc: Global,
        scope: &Scope<'_>,
        room: u32,
    ) -> Result<(u64, Boxed<Value>), ReadFault>
        ensures { Gives (λ x. (x, self.new)) result
            (read room scope.now (u64_form ◂ codes "," ▪ Part TheValue) self.old) }
    {
        let field = self.number()?;
        self.expect(b",")?;
        Ok((field, self.boxed_value(alloc, scope, room)?))
    }

    // The number of a variant, and its value.
    #[cycle(values)]
    fn number_and_value(
        &mut self,
        alloc: Global,
        scope: &Scope<'_>,
        room: u32,
    ) -> Result<(Num, Boxed<Value>), ReadFault>
        ensures { Gives (λ x. (x, self.new)) result
            (read room scope.now (num_form ◂ codes "," ▪ Part TheValue) self.old) }
    {
        let number = self.num(scope, room)?;
        self.expect(b",")?;
        Ok((number, self.boxed_value(alloc, scope, room)?))
    }

    #[cycle(values)]
    fn boxed_value(
        &mut self,
        alloc: Global,
        scope: &Scope<'_>,
        room: u32,
    ) -> Result<Boxed<Value>, ReadFault>
        ensures { Gives (λ v. (v, self.new)) result (read_part room scope.now TheValue self.old) }
    {
        let value = self.value(alloc, scope, room)?;
        Ok(Boxed::new(alloc, value)?)
    }

    #[tactic(auto, unfolding(mr_ast::specs::ValueGrammar::global_value_form))]
    fn global_value(&mut self, scope: &Scope<'_>, room: u32) -> Result<Value, ReadFault>
        ensures { Gives (λ v. (v, self.new)) result (read_outside room scope.now global_value_form self.old) }
    {
        let global = GlobalName(self.name(scope, false, Role::UsesGlobal)?);
        self.expect(b"+")?;
        Ok(Value::Global(global, self.number()?))
    }

    // Values behind one another, each behind a comma.
    #[cycle(values)]
    #[tactic(auto, unfolding(mr_ast::specs::ValueGrammar::more_values_form))]
    fn more_values(
        &mut self,
        alloc: Global,
        scope: &Scope<'_>,
        room: u32,
    ) -> Result<Items<Value>, ReadFault>
        ensures { Gives (λ vs. (vs, self.new)) result (read room scope.now more_values_form self.old) }
    {
        let mut values = Items::new(alloc);
        let most = self.left();
        for _ in 0..most {
            if !self.is_next(b",") {
                return Ok(values);
            }
            self.expect(b",")?;
            values = pushed(values, self.value(alloc, scope, room))?;
        }
        Ok(values)
    }

    /// A place, in which so many brackets may be opened. Its first word may be one too many.
    #[cycle(values)]
    #[tactic(auto, unfolding(mr_grammar::specs::Reading::read_part, mr_ast::specs::ValueGrammar::place_from))]
    pub fn place(
        &mut self,
        alloc: Global,
        scope: &Scope<'_>,
        room: u32,
        over: bool,
    ) -> Result<Place, ReadFault>
        ensures { Gives (λ p. (p, self.new)) result (read_part room scope.now (ThePlace over) self.old) }
    {
        let place = self.base(alloc, scope, room, over)?;
        self.postfixes(alloc, scope, room, place)
    }

    // A place without postfixes.
    #[cycle(values)]
    #[tactic(auto, unfolding(mr_ast::specs::ValueGrammar::base_form))]
    fn base(
        &mut self,
        alloc: Global,
        scope: &Scope<'_>,
        room: u32,
        over: bool,
    ) -> Result<Place, ReadFault>
        ensures { Gives (λ p. (p, self.new)) result (read_outside room scope.now (base_form over) self.old) }
    {
        if self.is_next(b"deref") {
            return self.deref(alloc, scope, room, over);
        }
        let number = self.name(scope, over, Role::UsesLocal)?;
        Ok(Place::Local(LocalName(number)))
    }

    #[cycle(values)]
    #[tactic(auto, unfolding(mr_ast::specs::ValueGrammar::deref_form), using(mr_grammar::proofs::Walk::InsideLaws::inside))]
    fn deref(
        &mut self,
        alloc: Global,
        scope: &Scope<'_>,
        room: u32,
        over: bool,
    ) -> Result<Place, ReadFault>
        ensures { Gives (λ p. (p, self.new)) result (read_outside room scope.now (deref_form over) self.old) }
    {
        self.expect_limited(b"deref", over, TOO_MANY)?;
        let inner = self.open(Bracket::Round, room)?;
        match self.target_of_pointer(alloc, scope, inner) {
            Ok(place) => self.closed(place, Bracket::Round),
            Err(fault) => Err(fault),
        }
    }

    // The target of a pointer, at a type.
    #[cycle(values)]
    fn target_of_pointer(
        &mut self,
        alloc: Global,
        scope: &Scope<'_>,
        room: u32,
    ) -> Result<Place, ReadFault>
        ensures { Gives (λ p. (p, self.new)) result (read room scope.now
            (giving (λ parts. Place.Deref parts.0 parts.1) (Part TheValue ◂ codes "," ▪ Part TheType)) self.old) }
    {
        let pointer = self.boxed_value(alloc, scope, room)?;
        self.expect(b",")?;
        let ty = self.ty(alloc, scope, room)?;
        Ok(Place::Deref(pointer, ty))
    }

    // The place with the postfixes that stand behind it.
    #[cycle(values)]
    #[tactic(auto, unfolding(mr_ast::specs::ValueGrammar::postfixes_form))]
    fn postfixes(
        &mut self,
        alloc: Global,
        scope: &Scope<'_>,
        room: u32,
        place: Place,
    ) -> Result<Place, ReadFault>
        ensures { Gives (λ p. (p, self.new)) result
            (with_all place (read_outside room scope.now postfixes_form self.old)) }
    {
        let mut place = place;
        let most = self.left();
        for k in 0..most {
            if !self.is_postfix_next() {
                return Ok(place);
            }
            let postfix = self.postfix(alloc, scope, room, k)?;
            place = with_postfix(alloc, place, postfix)?;
        }
        Ok(place)
    }

    fn is_postfix_next(&self) -> bool
        ensures { result ≡ is_next begins_postfix self.now }
    {
        self.is_next(b".") || self.is_next(b"[") || self.is_next(b"@")
    }

    // An index, where its bracket is closed.
    fn index(&mut self, index: Value) -> Result<Postfix, ReadFault>
        ensures { Gives (λ x. (postfix_of x, self.new)) result (indexed index self.old) }
    {
        match self.closed(index, Bracket::Square) {
            Ok(index) => Ok(Postfix::Index(index)),
            Err(fault) => Err(fault),
        }
    }

    // The postfix of number k.
    #[cycle(values)]
    #[tactic(auto, unfolding(mr_ast::specs::ValueGrammar::postfix_form), using(mr_grammar::proofs::Walk::InsideLaws::inside))]
    fn postfix(
        &mut self,
        alloc: Global,
        scope: &Scope<'_>,
        room: u32,
        k: usize,
    ) -> Result<Postfix, ReadFault>
        ensures { Gives (λ x. (postfix_of x, self.new)) result (read_outside room scope.now (postfix_form k) self.old) }
    {
        let over = k >= MAX_OPEN as usize;
        if self.is_next(b"[") {
            let inner = self.open_limited(Bracket::Square, room, over)?;
            return match self.value(alloc, scope, inner) {
                Ok(index) => self.index(index),
                Err(fault) => Err(fault),
            };
        }
        if self.is_next(b".") {
            self.expect_limited(b".", over, TOO_DEEP)?;
            return Ok(Postfix::Field(self.number()?));
        }
        self.expect_limited(b"@", over, TOO_DEEP)?;
        Ok(Postfix::Variant(self.num(scope, room)?))
    }
}

// The place with a postfix.
fn with_postfix(alloc: Global, place: Place, postfix: Postfix) -> Result<Place, AllocError>
    ensures { IfOk result (λ p. p ≡ with_postfix place (postfix_of postfix)) }
{
    match postfix {
        Postfix::Field(field) => Ok(Place::Field(Boxed::new(alloc, place)?, field)),
        Postfix::Index(index) => {
            let (place, index) = two_boxes(alloc, place, index)?;
            Ok(Place::Index(place, index))
        }
        Postfix::Variant(number) => Ok(Place::Variant(Boxed::new(alloc, place)?, number)),
    }
}

// Two things, each in a box.
fn two_boxes<A: Drop, B: Drop>(
    alloc: Global,
    first: A,
    second: B,
) -> Result<(Boxed<A>, Boxed<B>), AllocError>
    ensures { IfOk result (λ boxes. boxes ≡ (first, second)) }
{
    let first = Boxed::new(alloc, first)?;
    Ok((first, Boxed::new(alloc, second)?))
}
