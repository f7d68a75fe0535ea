//! Types and the trees of enums.
ghost use Rattle.std.specs.Prelude.{codes};
ghost use Rattle.mr_ast.specs.declared.words.Bracket.TheVariants.{Curly};
ghost use Rattle.mr_ast.specs.Forms.{Part};
ghost use Rattle.mr_ast.specs.Writing.{TheTree, TheType, listed, num_form, ◌▪◌, ◌▸◌, ◌◂◌};
ghost use Rattle.mr_ast.specs.TypeGrammar.{array_form, branch_form, case_form, cases_form, chunk_form, chunks_form, enum_form, field_form, fields_form, judged_tree, judged_type, ref_form, shape_form, tag_form, tags_form, tuple_type_form, union_type_form, variant_form, variants_form};
ghost use Rattle.mr_parse.specs.ReaderGives.{Gives};
ghost use Rattle.mr_grammar.specs.Reading.{first_at, read, read_outside, read_part};
ghost use Rattle.mr_parse.specs.ReaderViews.{shape_of};

use crate::reader::{Reader, beside, pushed};
use mr_ast::{Boxed, Bracket, Items, Num, Tag, Tree, TreeWord, Ty, TypeWord, Variant};
use mr_words::{ReadFault, Scope, UNEXPECTED, tree_word_of, type_word_of};
use std::alloc::Global;

// A size and an alignment.
#[derive(Clone, Copy)]
struct Shape {
    size: u64,
    align: u64,
}

impl<'a> Reader<'a> {
    #[tactic(auto, unfolding(mr_ast::specs::TypeGrammar::judged_type))]
    fn type_word(&mut self) -> Result<TypeWord, ReadFault>
        ensures { Gives (λ w. (w, self.new)) result (first_at judged_type self.old) }
    {
        let found = match self.peek() {
            Some(next) => type_word_of(next.text),
            None => None,
        };
        match found {
            Some(word) => {
                self.advance();
                Ok(word)
            }
            None => Err(self.stop(UNEXPECTED)),
        }
    }

    #[tactic(auto, unfolding(mr_ast::specs::TypeGrammar::judged_tree))]
    fn tree_word(&mut self) -> Result<TreeWord, ReadFault>
        ensures { Gives (λ w. (w, self.new)) result (first_at judged_tree self.old) }
    {
        let found = match self.peek() {
            Some(next) => tree_word_of(next.text),
            None => None,
        };
        match found {
            Some(word) => {
                self.advance();
                Ok(word)
            }
            None => Err(self.stop(UNEXPECTED)),
        }
    }

    /// A type, in which so many brackets may be opened.
    #[cycle(types)]
    #[tactic(auto, unfolding(mr_grammar::specs::Reading::read_part, mr_ast::specs::TypeGrammar::type_form))]
    pub fn ty(&mut self, alloc: Global, scope: &Scope, room: u32) -> Result<Ty, ReadFault>
        ensures { Gives (λ t. (t, self.new)) result (read_part room scope.now TheType self.old) }
    {
        match self.type_word()? {
            TypeWord::Int(int) => Ok(Ty::Int(int)),
            TypeWord::Bool => Ok(Ty::Bool),
            TypeWord::Raw => Ok(Ty::Raw),
            TypeWord::FnPtr => Ok(Ty::FnPtr),
            TypeWord::Unit => Ok(Ty::Tuple {
                size: 0,
                align: 1,
                fields: Items::new(alloc),
            }),
            TypeWord::Ref => self.reference(scope, room),
            TypeWord::Tuple => self.tuple_type(alloc, scope, room),
            TypeWord::Array => self.array(alloc, scope, room),
            TypeWord::Union => self.union_type(alloc, scope, room),
            TypeWord::Enum => self.enumeration(alloc, scope, room),
        }
    }

    #[tactic(auto, unfolding(mr_ast::specs::TypeGrammar::shape_form))]
    fn shape(&mut self, scope: &Scope, room: u32) -> Result<Shape, ReadFault>
        ensures { Gives (λ s. (shape_of s, self.new)) result (read_outside room scope.now shape_form self.old) }
    {
        self.expect(b"size")?;
        let size = self.number()?;
        self.expect(b"align")?;
        let align = self.number()?;
        Ok(Shape { size, align })
    }

    #[tactic(auto, unfolding(mr_ast::specs::TypeGrammar::ref_form))]
    fn reference(&mut self, scope: &Scope, room: u32) -> Result<Ty, ReadFault>
        ensures { Gives (λ t. (t, self.new)) result (read_outside room scope.now ref_form self.old) }
    {
        let size = self.number()?;
        let align = self.number()?;
        let never = self.is_next(b"never");
        if never {
            self.expect(b"never")?;
        }
        Ok(Ty::Ref { size, align, never })
    }

    #[cycle(types)]
    #[tactic(auto, unfolding(mr_ast::specs::TypeGrammar::array_form), using(mr_grammar::proofs::Walk::InsideLaws::inside))]
    fn array(&mut self, alloc: Global, scope: &Scope, room: u32) -> Result<Ty, ReadFault>
        ensures { Gives (λ t. (t, self.new)) result (read_outside room scope.now array_form self.old) }
    {
        let inner = self.open(Bracket::Round, room)?;
        let count = self.number()?;
        self.expect(b",")?;
        let elem = match self.ty(alloc, scope, inner) {
            Ok(elem) => self.closed(elem, Bracket::Round)?,
            Err(fault) => return Err(fault),
        };
        Ok(Ty::Array {
            count,
            elem: Boxed::new(alloc, elem)?,
        })
    }

    #[cycle(types)]
    #[tactic(auto, unfolding(mr_ast::specs::TypeGrammar::tuple_type_form))]
    fn tuple_type(&mut self, alloc: Global, scope: &Scope, room: u32) -> Result<Ty, ReadFault>
        ensures { Gives (λ t. (t, self.new)) result (read_outside room scope.now tuple_type_form self.old) }
    {
        let shape = self.shape(scope, room)?;
        let fields = self.fields(alloc, scope, room)?;
        Ok(Ty::Tuple {
            size: shape.size,
            align: shape.align,
            fields,
        })
    }

    #[cycle(types)]
    #[tactic(auto, unfolding(mr_ast::specs::TypeGrammar::union_type_form))]
    fn union_type(&mut self, alloc: Global, scope: &Scope, room: u32) -> Result<Ty, ReadFault>
        ensures { Gives (λ t. (t, self.new)) result (read_outside room scope.now union_type_form self.old) }
    {
        let shape = self.shape(scope, room)?;
        let fields = self.fields(alloc, scope, room)?;
        self.expect(b"chunks")?;
        let chunks = self.chunks(alloc, scope, room)?;
        Ok(Ty::Union {
            size: shape.size,
            align: shape.align,
            fields,
            chunks,
        })
    }

    #[cycle(types)]
    #[tactic(auto, unfolding(mr_grammar::specs::Reading::read_part, mr_ast::specs::TypeGrammar::enum_form))]
    fn enumeration(&mut self, alloc: Global, scope: &Scope, room: u32) -> Result<Ty, ReadFault>
        ensures { Gives (λ t. (t, self.new)) result (read_outside room scope.now enum_form self.old) }
    {
        let shape = self.shape(scope, room)?;
        self.expect(b"disc")?;
        let disc = self.int()?;
        let variants = self.variants(alloc, scope, room)?;
        let tree = self.tree(alloc, scope, room)?;
        Ok(Ty::Enum {
            size: shape.size,
            align: shape.align,
            disc,
            variants,
            tree,
        })
    }

    // The fields of a type, in their brackets.
    #[cycle(types)]
    #[tactic(auto, using(mr_grammar::proofs::Walk::InsideLaws::inside))]
    fn fields(
        &mut self,
        alloc: Global,
        scope: &Scope,
        room: u32,
    ) -> Result<Items<(u64, Ty)>, ReadFault>
        ensures { Gives (λ fs. (fs, self.new)) result
            (read_outside room scope.now (listed Curly fields_form) self.old) }
    {
        let inner = self.open(Bracket::Curly, room)?;
        if !self.is_other(b"}") {
            self.close(Bracket::Curly)?;
            return Ok(Items::new(alloc));
        }
        match self.some_fields(alloc, scope, inner) {
            Ok(fields) => self.closed(fields, Bracket::Curly),
            Err(fault) => Err(fault),
        }
    }

    #[cycle(types)]
    #[tactic(auto, unfolding(mr_ast::specs::TypeGrammar::field_form))]
    fn field(&mut self, alloc: Global, scope: &Scope, room: u32) -> Result<(u64, Ty), ReadFault>
        ensures { Gives (λ f. (f, self.new)) result (read room scope.now field_form self.old) }
    {
        let at = self.number()?;
        self.expect(b":")?;
        Ok((at, self.ty(alloc, scope, room)?))
    }

    // One field or more, with commas between them.
    #[cycle(types)]
    #[tactic(auto, unfolding(mr_ast::specs::TypeGrammar::fields_form))]
    fn some_fields(
        &mut self,
        alloc: Global,
        scope: &Scope,
        room: u32,
    ) -> Result<Items<(u64, Ty)>, ReadFault>
        ensures { Gives (λ fs. (fs, self.new)) result (read room scope.now fields_form self.old) }
    {
        let first = self.field(alloc, scope, room)?;
        let mut fields = Items::new(alloc);
        fields.push(first)?;
        let most = self.left();
        for _ in 0..most {
            if !self.is_next(b",") {
                return Ok(fields);
            }
            self.expect(b",")?;
            fields = pushed(fields, self.field(alloc, scope, room))?;
        }
        Ok(fields)
    }

    // The chunks of a union, in their brackets.
    #[tactic(auto, using(mr_grammar::proofs::Walk::InsideLaws::inside))]
    fn chunks(
        &mut self,
        alloc: Global,
        scope: &Scope,
        room: u32,
    ) -> Result<Items<(u64, u64)>, ReadFault>
        ensures { Gives (λ xs. (xs, self.new)) result
            (read_outside room scope.now (listed Curly chunks_form) self.old) }
    {
        let inner = self.open(Bracket::Curly, room)?;
        if !self.is_other(b"}") {
            self.close(Bracket::Curly)?;
            return Ok(Items::new(alloc));
        }
        match self.some_chunks(alloc, scope, inner) {
            Ok(chunks) => self.closed(chunks, Bracket::Curly),
            Err(fault) => Err(fault),
        }
    }

    #[tactic(auto, unfolding(mr_ast::specs::TypeGrammar::chunk_form))]
    fn chunk(&mut self, scope: &Scope, room: u32) -> Result<(u64, u64), ReadFault>
        ensures { Gives (λ c. (c, self.new)) result (read room scope.now chunk_form self.old) }
    {
        let at = self.number()?;
        let len = self.number()?;
        Ok((at, len))
    }

    // One chunk or more, with commas between them.
    #[tactic(auto, unfolding(mr_ast::specs::TypeGrammar::chunks_form))]
    fn some_chunks(
        &mut self,
        alloc: Global,
        scope: &Scope,
        room: u32,
    ) -> Result<Items<(u64, u64)>, ReadFault>
        ensures { Gives (λ xs. (xs, self.new)) result (read room scope.now chunks_form self.old) }
    {
        let first = self.chunk(scope, room)?;
        let mut chunks = Items::new(alloc);
        chunks.push(first)?;
        let most = self.left();
        for _ in 0..most {
            if !self.is_next(b",") {
                return Ok(chunks);
            }
            self.expect(b",")?;
            chunks = pushed(chunks, self.chunk(scope, room))?;
        }
        Ok(chunks)
    }

    // The variants of an enum, in their brackets.
    #[cycle(types)]
    #[tactic(auto, using(mr_grammar::proofs::Walk::InsideLaws::inside))]
    fn variants(
        &mut self,
        alloc: Global,
        scope: &Scope,
        room: u32,
    ) -> Result<Items<Variant>, ReadFault>
        ensures { Gives (λ xs. (xs, self.new)) result
            (read_outside room scope.now (listed Curly variants_form) self.old) }
    {
        let inner = self.open(Bracket::Curly, room)?;
        if !self.is_other(b"}") {
            self.close(Bracket::Curly)?;
            return Ok(Items::new(alloc));
        }
        match self.some_variants(alloc, scope, inner) {
            Ok(variants) => self.closed(variants, Bracket::Curly),
            Err(fault) => Err(fault),
        }
    }

    // One variant or more, with commas between them.
    #[cycle(types)]
    #[tactic(auto, unfolding(mr_ast::specs::TypeGrammar::variants_form))]
    fn some_variants(
        &mut self,
        alloc: Global,
        scope: &Scope,
        room: u32,
    ) -> Result<Items<Variant>, ReadFault>
        ensures { Gives (λ xs. (xs, self.new)) result (read room scope.now variants_form self.old) }
    {
        let first = self.variant(alloc, scope, room)?;
        let mut variants = Items::new(alloc);
        variants.push(first)?;
        let most = self.left();
        for _ in 0..most {
            if !self.is_next(b",") {
                return Ok(variants);
            }
            self.expect(b",")?;
            variants = pushed(variants, self.variant(alloc, scope, room))?;
        }
        Ok(variants)
    }

    #[cycle(types)]
    #[tactic(auto, unfolding(mr_ast::specs::TypeGrammar::variant_form))]
    fn variant(&mut self, alloc: Global, scope: &Scope, room: u32) -> Result<Variant, ReadFault>
        ensures { Gives (λ v. (v, self.new)) result (read room scope.now variant_form self.old) }
    {
        match self.variant_head(alloc, scope, room) {
            Ok(head) => match beside(head, self.tags_behind(alloc, scope, room)) {
                Ok(((number, ty), tags)) => Ok(Variant { number, ty, tags }),
                Err(fault) => Err(fault),
            },
            Err(fault) => Err(fault),
        }
    }

    // The number and the type of a variant.
    #[cycle(types)]
    fn variant_head(
        &mut self,
        alloc: Global,
        scope: &Scope,
        room: u32,
    ) -> Result<(Num, Ty), ReadFault>
        ensures { Gives (λ x. (x, self.new)) result
            (read room scope.now (num_form ◂ codes ":" ▪ Part TheType) self.old) }
    {
        let number = self.num(scope, room)?;
        self.expect(b":")?;
        Ok((number, self.ty(alloc, scope, room)?))
    }

    // The tags of a variant, behind their word.
    fn tags_behind(
        &mut self,
        alloc: Global,
        scope: &Scope,
        room: u32,
    ) -> Result<Items<Tag>, ReadFault>
        ensures { Gives (λ xs. (xs, self.new)) result
            (read room scope.now (codes "tag" ▸ listed Curly tags_form) self.old) }
    {
        self.expect(b"tag")?;
        self.tags(alloc, scope, room)
    }

    // The tags of a variant, in their brackets.
    #[tactic(auto, using(mr_grammar::proofs::Walk::InsideLaws::inside))]
    fn tags(&mut self, alloc: Global, scope: &Scope, room: u32) -> Result<Items<Tag>, ReadFault>
        ensures { Gives (λ xs. (xs, self.new)) result (read room scope.now (listed Curly tags_form) self.old) }
    {
        let inner = self.open(Bracket::Curly, room)?;
        if !self.is_other(b"}") {
            self.close(Bracket::Curly)?;
            return Ok(Items::new(alloc));
        }
        match self.some_tags(alloc, scope, inner) {
            Ok(tags) => self.closed(tags, Bracket::Curly),
            Err(fault) => Err(fault),
        }
    }

    // One tag or more, with commas between them.
    #[tactic(auto, unfolding(mr_ast::specs::TypeGrammar::tags_form))]
    fn some_tags(
        &mut self,
        alloc: Global,
        scope: &Scope,
        room: u32,
    ) -> Result<Items<Tag>, ReadFault>
        ensures { Gives (λ xs. (xs, self.new)) result (read room scope.now tags_form self.old) }
    {
        let first = self.tag(scope, room)?;
        let mut tags = Items::new(alloc);
        tags.push(first)?;
        let most = self.left();
        for _ in 0..most {
            if !self.is_next(b",") {
                return Ok(tags);
            }
            self.expect(b",")?;
            tags = pushed(tags, self.tag(scope, room))?;
        }
        Ok(tags)
    }

    #[tactic(auto, unfolding(mr_ast::specs::TypeGrammar::tag_form))]
    fn tag(&mut self, scope: &Scope, room: u32) -> Result<Tag, ReadFault>
        ensures { Gives (λ t. (t, self.new)) result (read room scope.now tag_form self.old) }
    {
        let at = self.number()?;
        self.expect(b":")?;
        let int = self.int()?;
        self.expect(b"=")?;
        let number = self.num(scope, room)?;
        Ok(Tag { at, int, number })
    }

    /// The tree of an enum, in which so many brackets may be opened.
    #[cycle(trees)]
    #[tactic(auto, unfolding(mr_grammar::specs::Reading::read_part, mr_ast::specs::TypeGrammar::tree_form))]
    fn tree(&mut self, alloc: Global, scope: &Scope, room: u32) -> Result<Tree, ReadFault>
        ensures { Gives (λ t. (t, self.new)) result (read_part room scope.now TheTree self.old) }
    {
        match self.tree_word()? {
            TreeWord::Known => Ok(Tree::Known(self.num(scope, room)?)),
            TreeWord::Invalid => Ok(Tree::Invalid),
            TreeWord::Branch => self.branch(alloc, scope, room),
        }
    }

    #[cycle(trees)]
    #[tactic(auto, unfolding(mr_ast::specs::TypeGrammar::branch_form), using(mr_grammar::proofs::Walk::InsideLaws::inside))]
    fn branch(&mut self, alloc: Global, scope: &Scope, room: u32) -> Result<Tree, ReadFault>
        ensures { Gives (λ t. (t, self.new)) result (read_outside room scope.now branch_form self.old) }
    {
        let at = self.number()?;
        let int = self.int()?;
        let inner = self.open(Bracket::Curly, room)?;
        match self.all_cases(alloc, scope, inner) {
            Ok(cases) => {
                let (cases, rest) = self.closed(cases, Bracket::Curly)?;
                Ok(Tree::Branch(at, int, cases, rest))
            }
            Err(fault) => Err(fault),
        }
    }

    // The trees for some numbers, and that for all others.
    #[cycle(trees)]
    fn all_cases(
        &mut self,
        alloc: Global,
        scope: &Scope,
        room: u32,
    ) -> Result<(Items<(Num, Tree)>, Boxed<Tree>), ReadFault>
        ensures { Gives (λ cs. (cs, self.new)) result
            (read room scope.now (cases_form ▪ codes "_" ▸ codes "=>" ▸ Part TheTree) self.old) }
    {
        match self.cases(alloc, scope, room) {
            Ok(cases) => beside(cases, self.other_tree(alloc, scope, room)),
            Err(fault) => Err(fault),
        }
    }

    // The tree for all other numbers.
    #[cycle(trees)]
    fn other_tree(
        &mut self,
        alloc: Global,
        scope: &Scope,
        room: u32,
    ) -> Result<Boxed<Tree>, ReadFault>
        ensures { Gives (λ t. (t, self.new)) result
            (read room scope.now (codes "_" ▸ codes "=>" ▸ Part TheTree) self.old) }
    {
        self.expect(b"_")?;
        self.expect(b"=>")?;
        let tree = self.tree(alloc, scope, room)?;
        Ok(Boxed::new(alloc, tree)?)
    }

    // The trees for some numbers.
    #[cycle(trees)]
    #[tactic(auto, unfolding(mr_ast::specs::TypeGrammar::cases_form))]
    fn cases(
        &mut self,
        alloc: Global,
        scope: &Scope,
        room: u32,
    ) -> Result<Items<(Num, Tree)>, ReadFault>
        ensures { Gives (λ cs. (cs, self.new)) result (read room scope.now cases_form self.old) }
    {
        let mut cases = Items::new(alloc);
        let most = self.left();
        for _ in 0..most {
            if !self.is_other(b"_") {
                return Ok(cases);
            }
            cases.push(self.case(alloc, scope, room)?)?;
        }
        Ok(cases)
    }

    #[cycle(trees)]
    #[tactic(auto, unfolding(mr_ast::specs::TypeGrammar::case_form))]
    fn case(&mut self, alloc: Global, scope: &Scope, room: u32) -> Result<(Num, Tree), ReadFault>
        ensures { Gives (λ c. (c, self.new)) result (read room scope.now case_form self.old) }
    {
        let number = self.num(scope, room)?;
        self.expect(b"=>")?;
        match self.tree(alloc, scope, room) {
            Ok(tree) => self.followed((number, tree), b","),
            Err(fault) => Err(fault),
        }
    }
}
